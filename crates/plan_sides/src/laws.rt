//! Laws of the definitions, each carried by the contract of a function that does nothing.
ghost use Rattle.plan_sides.specs.Closure.{SidesAreBalanced};

/// At each point as many sides of outlines start as end.
#[tactic(auto, using(crate::proofs::Closure::sides_balanced))]
pub fn sides_are_balanced()
    ensures { SidesAreBalanced }
{}
