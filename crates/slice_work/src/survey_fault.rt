//! Why a survey stops before its end.

use scad_fault::Budget;
use std::alloc::{AllocError, AllocFailed};

/// Why a survey stops before its end.
#[derive(Drop)]
pub enum SurveyFault {
    /// There was too little memory.
    Memory,
    /// The budget of the least layer that passes one.
    Over(Budget),
}

impl From<AllocError> for SurveyFault {
    ghost use Rattle.std.specs.Prelude.{◌≡◌};
    ghost use Rattle.slice_work.specs.declared.survey_fault.SurveyFault.TheVariants.{Memory};

    ghost from_gives = { λ _ fault. fault ≡ Memory };

    fn from(_error: AllocError) -> SurveyFault {
        SurveyFault::Memory
    }
}
