//! Why a command is refused.
ghost use Rattle.std.specs.Prelude.{◌≡◌};
ghost use Rattle.scad_script.specs.Script.{refused};

use scad_fault::{BadKind, Budget, Fault, SetFault, Status};

/// A command that ends before all is done, though nothing failed.
#[derive(Drop)]
pub enum Refusal {
    /// The source is refused.
    Source(Fault),
    /// The words of the command line are not of the form.
    Usage,
    /// The settings are refused.
    Settings(SetFault),
    /// A budget was passed.
    Over(Budget),
    /// A move leaves the outlines that it is judged by: its number among those that extrude, and its line's.
    Outside {
        number: u64,
        line: u32,
    },
    /// A file that is to be judged is not of the form: why, and the numbers that its line tells.
    BadFile {
        kind: BadKind,
        first: u64,
        second: u64,
    },
}

impl Refusal {
    /// The status of the refusal.
    pub fn into_status(self) -> Status
        ensures { result ≡ refused self }
    {
        match self {
            Refusal::Source(fault) => Status::Source(fault),
            Refusal::Usage => Status::Usage,
            Refusal::Settings(fault) => Status::Settings(fault),
            Refusal::Over(budget) => Status::Over(budget),
            Refusal::Outside { number, line } => Status::Outside { number, line },
            Refusal::BadFile {
                kind,
                first,
                second,
            } => Status::BadFile {
                kind,
                first,
                second,
            },
        }
    }
}
