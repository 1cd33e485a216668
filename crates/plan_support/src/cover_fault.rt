//! Why stretches of cover aren't given.
use std::alloc::AllocError;

/// Why stretches of cover aren't given.
#[derive(Drop)]
pub enum CoverFault {
    /// There was too little memory.
    Memory,
    /// There are more than 10,000,000 stretches: their number, over all layers.
    Runs(u64),
}

impl From<AllocError> for CoverFault {
    ghost use Rattle.std.specs.Prelude.{◌≡◌};
    ghost use Rattle.plan_support.specs.declared.cover_fault.CoverFault.TheVariants.{Memory};

    ghost from_gives = { λ _ fault. fault ≡ Memory };

    fn from(_error: AllocError) -> CoverFault {
        CoverFault::Memory
    }
}
