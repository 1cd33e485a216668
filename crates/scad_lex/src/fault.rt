//! Why a text is refused.
use scad_fault::Place;
use std::alloc::{AllocError, AllocFailed};

/// Why a text has no tokens: the first place at which it is refused.
#[derive(Clone, Copy)]
pub enum LexFault {
    /// No token, blank or comment begins there; or an unclosed string or comment does; or there stands a bad escape
    /// or no UTF-8 in a string.
    BadText(Place),
    /// A number stands there whose millionths pass 10^15.
    Range(Place),
    /// There was no memory.
    Memory,
}

impl From<AllocError> for LexFault {
    ghost use Rattle.std.specs.Prelude.{◌≡◌};
    ghost use Rattle.scad_lex.specs.declared.fault.LexFault.TheVariants.{Memory};

    ghost from_gives = { λ _ e. e ≡ Memory };

    fn from(_e: AllocError) -> LexFault {
        LexFault::Memory
    }
}

impl<T: Drop> From<AllocFailed<T>> for LexFault {
    ghost use Rattle.std.specs.Prelude.{◌≡◌};
    ghost use Rattle.scad_lex.specs.declared.fault.LexFault.TheVariants.{Memory};

    ghost from_gives = { λ _ e. e ≡ Memory };

    fn from(_e: AllocFailed<T>) -> LexFault {
        LexFault::Memory
    }
}
