//! Why a script stops before its end.
use crate::Refusal;
use std::alloc::AllocError;

/// Why a script wasn't played to its end.
#[derive(Drop)]
pub enum Stop {
    /// The command is refused.
    Ends(Refusal),
    /// The input failed.
    Read,
    /// An output other than the report failed.
    Write,
    /// The report failed, so that it gets no last line.
    Silent,
    /// There was too little memory.
    Memory,
}

impl From<AllocError> for Stop {
    ghost use Rattle.std.specs.Prelude.{◌≡◌};
    ghost use Rattle.scad_script.specs.declared.stop.Stop.TheVariants.{Memory};

    ghost from_gives = { λ _ stop. stop ≡ Memory };

    fn from(_: AllocError) -> Self {
        Stop::Memory
    }
}
