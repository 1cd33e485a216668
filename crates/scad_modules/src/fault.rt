//! Refusals of arguments.

use std::alloc::{AllocError, AllocFailed};

/// Why the arguments of a module of the language say nothing.
#[derive(Clone, Copy)]
pub enum ArgumentFault {
    /// A value is missing, or isn't what the module takes.
    BadArgument,
    /// A form that the language leaves out.
    LeftOut,
    /// A number passes 10^15 millionths in size.
    NumberRange,
    /// There was no memory.
    Memory,
}

impl From<AllocError> for ArgumentFault {
    ghost use Rattle.std.specs.Prelude.{◌≡◌};
    ghost use Rattle.scad_modules.specs.declared.fault.ArgumentFault.TheVariants.{Memory};

    ghost from_gives = { λ _ e. e ≡ Memory };

    fn from(_error: AllocError) -> ArgumentFault {
        ArgumentFault::Memory
    }
}

impl<T: Drop> From<AllocFailed<T>> for ArgumentFault {
    ghost use Rattle.std.specs.Prelude.{◌≡◌};
    ghost use Rattle.scad_modules.specs.declared.fault.ArgumentFault.TheVariants.{Memory};

    ghost from_gives = { λ _ e. e ≡ Memory };

    fn from(_error: AllocFailed<T>) -> ArgumentFault {
        ArgumentFault::Memory
    }
}
