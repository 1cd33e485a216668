//! The laws of the cosine, each carried by the contract of a function that does nothing.
ghost use Rattle.scad_cos.specs.Laws.{CosineIsEven, CosineRepeats, CosineIsOpposite};

/// An angle and its opposite have the same cosine.
#[tactic(auto, using(crate::proofs::CosineLaws::cosine_is_even))]
pub fn cosine_is_even()
    ensures { CosineIsEven }
{}

/// A full turn changes nothing.
#[tactic(auto, using(crate::proofs::CosineLaws::cosine_repeats))]
pub fn cosine_repeats()
    ensures { CosineRepeats }
{}

/// At 180 degrees less the angle the cosine is the opposite.
#[tactic(auto, using(crate::proofs::CosineLaws::cosine_is_opposite))]
pub fn cosine_is_opposite()
    ensures { CosineIsOpposite }
{}
