//! Why a call has no value.

ghost use Rattle.std.specs.Prelude.{◌≡◌};
ghost use Rattle.scad_builtin.specs.Fault.{fault_of};
ghost use Rattle.scad_builtin.specs.declared.fault.BuiltinFault.TheVariants.{Memory};

use scad_num::NumFault;
use std::alloc::AllocError;

/// Why a call of a function has no value.
#[derive(Clone, Copy, Drop)]
pub enum BuiltinFault {
    Memory,
    /// The language has no function of this name.
    UnknownFunction,
    /// The function is one that the language leaves out.
    LeftOut,
    /// An argument is missing, or of a kind that the function doesn't take.
    BadArgument,
    /// The divisor is 0.
    ZeroDivisor,
    /// A result is more than 10^15 millionths in size.
    NumberRange,
}

impl From<NumFault> for BuiltinFault {
    ghost from_gives = { λ fault given. given ≡ fault_of fault };

    fn from(fault: NumFault) -> BuiltinFault {
        match fault {
            NumFault::Range => BuiltinFault::NumberRange,
            NumFault::ZeroDivisor => BuiltinFault::ZeroDivisor,
        }
    }
}

impl From<AllocError> for BuiltinFault {
    ghost from_gives = { λ _ given. given ≡ Memory };

    fn from(_error: AllocError) -> BuiltinFault {
        BuiltinFault::Memory
    }
}
