//! The step that reads: a file is opened and read to its end, or past a limit.
ghost use Rattle.std.specs.Prelude.{◌≡◌, ◌<◌, ◌∷◌, [], Some, IfOk, IfSome, option_map};
ghost use Rattle.scad_script.specs.Steps.{Reads};
ghost use Rattle.scad_script.specs.Script.{first, input_of, IsWithin};
ghost use Rattle.scad_script.specs.Play.{Carries};
ghost use Rattle.scad_script.specs.Run.{Sound, CreatesNone};
ghost use Rattle.scad_script.specs.Departure.{Keeps};

use crate::Stop;
use scad_fault::Text;
use scad_io::{Desk, Failed, ReadEnd, read_all};
use std::alloc::Global;

/// What was read of a file.
#[derive(Drop)]
pub enum Input {
    /// All of it.
    Whole(Text),
    /// It is longer than the limit.
    Long,
}

/// Opens the file of this name and reads it to its end, or to one byte past the limit: the step `Reads`.
pub fn load<D: Desk>(
    alloc: Global,
    name: &str,
    limit: Option<usize>,
    desk: &mut D,
) -> Result<Input, Stop>
    requires sound { Sound (D.view desk.old) }

    ensures carries { Carries (first (Reads name.now ∷ [])) result (D.view desk.old) (D.view desk.new) }
    ensures told { IfOk result (λ input. IfSome (D.files desk.old) (λ contents.
        option_map (input_of limit) (contents name.now) ≡ Some input)) }
    ensures within { IfOk result (IsWithin limit) }
    ensures kept { Keeps D.files D.view D.faults desk.old desk.new result }
    ensures creates { CreatesNone (D.view desk.old) (D.view desk.new) }
{
    match desk.open(name) {
        Ok(()) => {}
        Err(Failed) => return Err(Stop::Read),
    }
    match read_all(alloc, desk, limit) {
        Ok(text) => Ok(Input::Whole(text)),
        Err(ReadEnd::Long) => Ok(Input::Long),
        Err(ReadEnd::Fault) => Err(Stop::Read),
        Err(ReadEnd::Memory) => Err(Stop::Memory),
    }
}
