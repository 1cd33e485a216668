//! What hulls contain, by the definition of what a surface contains at a layer's plane.
//!
//! The contract of each function here is a law of the definitions; the functions do nothing.
#![tactic(auto)]

ghost use Rattle.hull_laws.specs.Laws.{HullsHold, HullsAreSolids};

/// The solid that points have as their hull contains a point that lies in the plane of none of its triangles exactly
/// where the point lies on the inner side of each. Each triangle lies in the plane of its face.
#[tactic(auto, using(crate::proofs::Holding::hulls_hold))]
pub fn hulls_hold()
    ensures { HullsHold }
{}

/// What points in range have as their hull is closed and in range, and it has triangles.
#[tactic(auto, using(crate::proofs::Solids::hulls_are_solids))]
pub fn hulls_are_solids()
    ensures { HullsAreSolids }
{}
