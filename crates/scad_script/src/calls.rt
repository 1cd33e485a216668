//! The two steps that draw: an output is created, and a piece is written to it.
ghost use Rattle.std.specs.Prelude.{◌≡◌, ◌≢◌, ◌<◌, ◌∷◌, [], false, OnOk, OnErr};
ghost use Rattle.scad_io.specs.Desk.{side};
ghost use Rattle.scad_script.specs.Steps.{Makes, Sends};
ghost use Rattle.scad_script.specs.Script.{first};
ghost use Rattle.scad_script.specs.Play.{Carries, IsThere, stop_of};
ghost use Rattle.scad_script.specs.Run.{Sound, CreatesOne};
ghost use Rattle.scad_script.specs.Departure.{Keeps, KeepsFiles};

use crate::Stop;
use scad_io::{Desk, Failed, Out, write_all};

/// Creates an output by this name: the step `Makes`.
pub fn make<D: Desk>(desk: &mut D, out: Out, name: &str) -> Result<(), Stop>
    requires named { out ≢ Out.Report }
    requires sound { Sound (D.view desk.old) }
    requires absent { (side out (D.view desk.old)).created ≡ false }

    ensures carries { Carries (first (Makes out name.now ∷ [])) result (D.view desk.old) (D.view desk.new) }
    ensures sound { OnOk result (Sound (D.view desk.new)) }
    ensures creates { OnOk result (CreatesOne out (D.view desk.old) (D.view desk.new)) }
    ensures kept { KeepsFiles D.files D.faults desk.old desk.new }
    ensures cause { OnErr result (D.faults desk.old < D.faults desk.new) }
{
    match desk.create(out, name) {
        Ok(()) => Ok(()),
        Err(Failed) => Err(Stop::Write),
    }
}

/// Writes a piece to an output: the step `Sends`. Where the report fails the answer is `Silent`.
pub fn send<D: Desk>(desk: &mut D, out: Out, piece: &[u8]) -> Result<(), Stop>
    requires sound { Sound (D.view desk.old) }
    requires made { IsThere out (D.view desk.old) }

    ensures carries { Carries (first (Sends out piece.now ∷ [])) result (D.view desk.old) (D.view desk.new) }
    ensures kept { Keeps D.files D.view D.faults desk.old desk.new result }
    ensures cause { OnErr result (D.faults desk.old < D.faults desk.new) }
{
    match write_all(desk, out, piece) {
        Ok(()) => Ok(()),
        Err(Failed) => Err(failed(out)),
    }
}

/// Why a script stops where this output failed.
fn failed(out: Out) -> Stop
    ensures { result ≡ stop_of out }
{
    match out {
        Out::Report => Stop::Silent,
        Out::Cli | Out::Gcode => Stop::Write,
    }
}
