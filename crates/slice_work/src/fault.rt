//! Why the work on a part stops before its end.

use scad_fault::Budget;
use std::alloc::{AllocError, AllocFailed};

/// Why the work on a part stops before its end.
#[derive(Drop)]
pub enum WorkFault {
    /// There was too little memory.
    Memory,
    /// An output failed.
    Write,
    /// The least layer that passes a budget.
    Over(Budget),
}

impl From<AllocError> for WorkFault {
    ghost use Rattle.std.specs.Prelude.{◌≡◌};
    ghost use Rattle.slice_work.specs.declared.fault.WorkFault.TheVariants.{Memory};

    ghost from_gives = { λ _ fault. fault ≡ Memory };

    fn from(_error: AllocError) -> WorkFault {
        WorkFault::Memory
    }
}
