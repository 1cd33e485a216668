//! What is said of a printing program.

use gcode_text::GFault;
use std::alloc::{AllocError, AllocFailed};

/// Whether the moves that extrude stay inside.
#[derive(Clone, Copy)]
pub enum Verdict {
    /// Each of them does; there are so many.
    Inside { moves: u64 },
    /// The move with this number, from 1 among those that extrude, is the first that doesn't. It stands in the line with
    /// this number, from 1.
    Outside { number: u64, line: u32 },
}

/// Why a program isn't judged.
#[derive(Clone, Copy)]
pub enum VerifyFault {
    /// There was no memory.
    Memory,
    /// The line with this number is the first that the machine refuses: a command that it doesn't know, or a letter that
    /// the command doesn't have or that stands twice.
    UnknownWord(u32),
    /// The line with this number is the first that the machine refuses: what stands behind a letter is no number, or one
    /// out of range.
    BadNumber(u32),
}

impl From<AllocError> for VerifyFault {
    ghost use Rattle.std.specs.Prelude.{◌≡◌};
    ghost use Rattle.plan_verify.specs.declared.verdict.VerifyFault.TheVariants.{Memory};

    ghost from_gives = { λ _ e. e ≡ Memory };

    fn from(_e: AllocError) -> VerifyFault {
        VerifyFault::Memory
    }
}

impl<T: Drop> From<AllocFailed<T>> for VerifyFault {
    ghost use Rattle.std.specs.Prelude.{◌≡◌};
    ghost use Rattle.plan_verify.specs.declared.verdict.VerifyFault.TheVariants.{Memory};

    ghost from_gives = { λ _ e. e ≡ Memory };

    fn from(_e: AllocFailed<T>) -> VerifyFault {
        VerifyFault::Memory
    }
}

impl From<GFault> for VerifyFault {
    ghost use Rattle.std.specs.Prelude.{◌≡◌};
    ghost use Rattle.plan_verify.specs.Verdict.{refusal_of};

    ghost from_gives = { λ fault e. e ≡ refusal_of fault };

    fn from(fault: GFault) -> VerifyFault {
        match fault {
            GFault::UnknownWord(line) => VerifyFault::UnknownWord(line),
            GFault::BadNumber(line) => VerifyFault::BadNumber(line),
        }
    }
}
