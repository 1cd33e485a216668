//! How a run ended, and the last line of its report.
ghost use Rattle.std.specs.Prelude.{◌≡◌, ◌≢◌, IfOk};
ghost use Rattle.scad_fault.specs.Line.{line_of};
ghost use Rattle.scad_fault.specs.Status.{code_of};

use crate::budget::Budget;
use crate::fault::Fault;
use crate::settings::SetFault;
use crate::text::Text;
use crate::verdict::{self, BadKind};
use std::alloc::{AllocError, Global};

/// The report's last line after `Status::Read`. Like the next two it takes no memory.
pub const READ_FAULT: &[u8] = b"read fault\n";

/// The report's last line after `Status::Write`.
pub const WRITE_FAULT: &[u8] = b"write fault\n";

/// The report's last line after `Status::Memory`.
pub const OUT_OF_MEMORY: &[u8] = b"out of memory\n";

/// How a run ended.
#[derive(Drop)]
pub enum Status {
    /// What was asked for is written.
    Done,
    /// The source is refused.
    Source(Fault),
    /// The words of the command line are not of the form.
    Usage,
    /// The settings are refused.
    Settings(SetFault),
    /// A file could not be read.
    Read,
    /// An output could not be written.
    Write,
    /// A budget was passed.
    Over(Budget),
    /// There was too little memory.
    Memory,
    /// The extruding move with this number, counted from 1, in the line with this number, counted from 1, is the first that
    /// leaves its outlines.
    Outside {
        number: u64,
        line: u32,
    },
    /// A file that was to be judged is not of the form: why, and the numbers that its line tells. The second is 0 but for
    /// `BadKind::CliCount`.
    BadFile {
        kind: BadKind,
        first: u64,
        second: u64,
    },
}

impl Status {
    /// The number that the program ends with.
    pub fn code(&self) -> u8
        ensures { result ≡ code_of self.now }
    {
        match self {
            Status::Done => 0,
            Status::Source(_) => 1,
            Status::Usage => 2,
            Status::Settings(_) => 3,
            Status::Read => 4,
            Status::Write => 5,
            Status::Over(_) => 6,
            Status::Memory => 7,
            Status::Outside { .. } => 8,
            Status::BadFile { .. } => 9,
        }
    }

    /// The report's last line, with its line feed. The line of `Done` is the command's own.
    pub fn last_line(&self, alloc: Global) -> Result<Text, AllocError>
        requires { self.now ≢ Status.Done }
        ensures { IfOk result (λ t. t ≡ line_of self.now) }
    {
        match self {
            Status::Done => unreachable!(),
            Status::Source(fault) => fault.line(alloc),
            Status::Usage => Text::of(alloc, b"usage: scadslice COMMAND\n"),
            Status::Settings(fault) => fault.line(alloc),
            Status::Read => Text::of(alloc, READ_FAULT),
            Status::Write => Text::of(alloc, WRITE_FAULT),
            Status::Over(budget) => budget.line(alloc),
            Status::Memory => Text::of(alloc, OUT_OF_MEMORY),
            Status::Outside { number, line } => verdict::outside_line(alloc, *number, *line),
            Status::BadFile {
                kind,
                first,
                second,
            } => kind.line(alloc, *first, *second),
        }
    }
}

/// The three constants are the last lines of their statuses. It does nothing.
pub fn constant_lines()
    ensures read { READ_FAULT.now ≡ line_of Status.Read }
    ensures write { WRITE_FAULT.now ≡ line_of Status.Write }
    ensures memory { OUT_OF_MEMORY.now ≡ line_of Status.Memory }
{}
