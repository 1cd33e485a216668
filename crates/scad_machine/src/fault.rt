//! Why an expression has no value.

use scad_fault::{Budget, Fault};
use std::alloc::{AllocError, AllocFailed};

/// Why an expression has no value.
#[derive(Drop)]
pub enum EvalFault {
    /// A fault of the program.
    Fault(Fault),
    /// A budget that was passed.
    Over(Budget),
    /// There was no memory.
    Memory,
}

impl From<AllocError> for EvalFault {
    ghost use Rattle.std.specs.Prelude.{◌≡◌};
    ghost use Rattle.scad_machine.specs.declared.fault.EvalFault.TheVariants.{Memory};

    ghost from_gives = { λ _ e. e ≡ Memory };

    fn from(_error: AllocError) -> EvalFault {
        EvalFault::Memory
    }
}

impl<T: Drop> From<AllocFailed<T>> for EvalFault {
    ghost use Rattle.std.specs.Prelude.{◌≡◌};
    ghost use Rattle.scad_machine.specs.declared.fault.EvalFault.TheVariants.{Memory};

    ghost from_gives = { λ _ e. e ≡ Memory };

    fn from(_error: AllocFailed<T>) -> EvalFault {
        EvalFault::Memory
    }
}
