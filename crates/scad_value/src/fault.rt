//! Why an operation has no value.
use scad_num::NumFault;
use std::alloc::{AllocError, AllocFailed};

/// Why an operation has no value.
#[derive(Clone, Copy)]
pub enum ValueFault {
    /// A divisor is 0.
    ZeroDivisor,
    /// A number is more than 10^15 millionths in size.
    NumberRange,
    /// There was no memory.
    Memory,
}

impl From<AllocError> for ValueFault {
    ghost use Rattle.std.specs.Prelude.{◌≡◌};
    ghost use Rattle.scad_value.specs.declared.fault.ValueFault.TheVariants.{Memory};

    ghost from_gives = { λ _ e. e ≡ Memory };

    fn from(_e: AllocError) -> ValueFault {
        ValueFault::Memory
    }
}

impl<T: Drop> From<AllocFailed<T>> for ValueFault {
    ghost use Rattle.std.specs.Prelude.{◌≡◌};
    ghost use Rattle.scad_value.specs.declared.fault.ValueFault.TheVariants.{Memory};

    ghost from_gives = { λ _ e. e ≡ Memory };

    fn from(_e: AllocFailed<T>) -> ValueFault {
        ValueFault::Memory
    }
}

impl From<NumFault> for ValueFault {
    ghost use Rattle.std.specs.Prelude.{◌≡◌};
    ghost use Rattle.scad_value.specs.Faults.{fault_of};

    ghost from_gives = { λ f e. e ≡ fault_of f };

    fn from(fault: NumFault) -> ValueFault {
        match fault {
            NumFault::Range => ValueFault::NumberRange,
            NumFault::ZeroDivisor => ValueFault::ZeroDivisor,
        }
    }
}
