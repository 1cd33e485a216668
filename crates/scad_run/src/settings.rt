//! The settings of a run.
ghost use Rattle.std.specs.Prelude.{◌<◌, IfOk};
ghost use Rattle.scad_words.specs.Settings.{settings_of, AreInRange};
ghost use Rattle.scad_script.specs.Run.{Sound, CreatesNone};
ghost use Rattle.scad_script.specs.Departure.{Keeps};
ghost use Rattle.scad_run.specs.Playing.{Settles, IsJudged};

use scad_fault::FileName;
use scad_io::Desk;
use scad_script::{Input, Refusal, Stop, load};
use scad_words::{SetError, Settings, read_settings};
use std::alloc::Global;

/// The settings that the file of this name gives, or the defaults where none is named. The file may be of any length.
pub fn settle<D: Desk>(
    alloc: Global,
    name: &Option<FileName>,
    desk: &mut D,
) -> Result<Settings, Stop>
    requires sound { Sound (D.view desk.old) }

    ensures settles { Settles name.now (D.files desk.old) result (D.view desk.old) (D.view desk.new) }
    ensures in_range { IfOk result AreInRange }
    ensures kept { Keeps D.files D.view D.faults desk.old desk.new result }
    ensures creates { CreatesNone (D.view desk.old) (D.view desk.new) }
{
    let Some(name) = name else {
        return Ok(Settings::defaults());
    };
    match load(alloc, name.as_str(), None, desk)? {
        Input::Whole(text) => judged(alloc, text.as_slice()),
        Input::Long => unreachable!(),
    }
}

/// The settings of a text, or why they are refused.
fn judged(alloc: Global, text: &[u8]) -> Result<Settings, Stop>
    ensures judged { IsJudged (settings_of text.now) result }
    ensures in_range { IfOk result AreInRange }
{
    match read_settings(alloc, text) {
        Ok(settings) => Ok(settings),
        Err(SetError::Refused(fault)) => Err(Stop::Ends(Refusal::Settings(fault))),
        Err(SetError::Memory) => Err(Stop::Memory),
    }
}
