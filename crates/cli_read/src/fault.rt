//! Why a text isn't read.

use std::alloc::{AllocError, AllocFailed};

/// What is wrong with a text: its first line with a fault. Lines are numbered from 1.
#[derive(Clone, Copy, Debug)]
pub enum CliFault {
    /// There was no memory.
    Memory,
    /// The line with this number isn't of the form, or out of order, or wanting.
    BadLine(u64),
    /// So many points or layers are said, and so many are there.
    CountDiffers(u64, u64),
    /// The outline in the line with this number has fewer than four points, or doesn't end where it begins.
    OpenLoop(u64),
}

impl From<AllocError> for CliFault {
    ghost use Rattle.std.specs.Prelude.{◌≡◌};
    ghost use Rattle.cli_read.specs.declared.fault.CliFault.TheVariants.{Memory};

    ghost from_gives = { λ _ e. e ≡ Memory };

    fn from(_e: AllocError) -> CliFault {
        CliFault::Memory
    }
}

impl<T: Drop> From<AllocFailed<T>> for CliFault {
    ghost use Rattle.std.specs.Prelude.{◌≡◌};
    ghost use Rattle.cli_read.specs.declared.fault.CliFault.TheVariants.{Memory};

    ghost from_gives = { λ _ e. e ≡ Memory };

    fn from(_e: AllocFailed<T>) -> CliFault {
        CliFault::Memory
    }
}
