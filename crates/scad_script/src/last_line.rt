//! The report's last line.
ghost use Rattle.std.specs.Prelude.{◌≡◌, ◌≢◌, ◌⊎◌, ◌<◌, false};
ghost use Rattle.scad_script.specs.Run.{Tells, Reports};
ghost use Rattle.scad_script.specs.Departure.{KeepsFiles};

use crate::{Refusal, Stop};
use scad_fault::{OUT_OF_MEMORY, READ_FAULT, Status, Text, WRITE_FAULT};
use scad_io::{Desk, Failed, Out, write_all};
use std::alloc::{AllocError, Global};

/// Writes the last line for how a script ended, and gives the run's status.
///
/// The lines of `Read`, `Write` and `Memory` take no memory. A report that has failed gets no line.
pub fn report<D: Desk>(alloc: Global, ended: Result<Text, Stop>, desk: &mut D) -> Status
    requires sound { ended ≢ Err Stop.Silent → (D.view desk.old).report.failed ≡ false }

    ensures reports { Reports ended result (D.view desk.old) (D.view desk.new) }
    ensures kept { KeepsFiles D.files D.faults desk.old desk.new }
    ensures read { result ≡ Status.Read → ended ≡ Err Stop.Read }
    ensures write { result ≡ Status.Write
        → (ended ≡ Err Stop.Write) ⊎ ((ended ≡ Err Stop.Silent) ⊎ (D.faults desk.old < D.faults desk.new)) }
{
    match ended {
        Ok(line) => tell(line.as_slice(), Status::Done, desk),
        Err(Stop::Ends(refusal)) => tell_refusal(alloc, refusal, desk),
        Err(Stop::Read) => tell(READ_FAULT, Status::Read, desk),
        Err(Stop::Write) => tell(WRITE_FAULT, Status::Write, desk),
        Err(Stop::Silent) => Status::Write,
        Err(Stop::Memory) => tell(OUT_OF_MEMORY, Status::Memory, desk),
    }
}

/// Writes the line of a refusal, or that there is no memory for it.
fn tell_refusal<D: Desk>(alloc: Global, refusal: Refusal, desk: &mut D) -> Status
    requires sound { (D.view desk.old).report.failed ≡ false }

    ensures reports { Reports (Err (Stop.Ends refusal)) result (D.view desk.old) (D.view desk.new) }
    ensures kept { KeepsFiles D.files D.faults desk.old desk.new }
    ensures read { result ≢ Status.Read }
    ensures write { result ≡ Status.Write → D.faults desk.old < D.faults desk.new }
{
    let status = refusal.into_status();
    match status.last_line(alloc) {
        Ok(line) => tell(line.as_slice(), status, desk),
        Err(AllocError) => tell(OUT_OF_MEMORY, Status::Memory, desk),
    }
}

/// Writes a last line, and gives its status, or `Write` where the report failed.
fn tell<D: Desk>(line: &[u8], status: Status, desk: &mut D) -> Status
    requires sound { (D.view desk.old).report.failed ≡ false }

    ensures tells { Tells line.now status result (D.view desk.old) (D.view desk.new) }
    ensures kept { KeepsFiles D.files D.faults desk.old desk.new }
    ensures status { result ≢ Status.Write → result ≡ status }
    ensures write { result ≡ Status.Write → (status ≡ Status.Write) ⊎ (D.faults desk.old < D.faults desk.new) }
{
    match write_all(desk, Out::Report, line) {
        Ok(()) => status,
        Err(Failed) => Status::Write,
    }
}
