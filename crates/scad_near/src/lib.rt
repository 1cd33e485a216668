//! Whether two edges come within an octagon of each other.
//!
//! The contract promises that the test tells exactly whether some point of the one differs from some point of the other
//! by a point of the octagon.
#![tactic(auto, using(scad_geom::proofs::Casts::casts))]

mod crossing;
mod edges;

pub use edges::near;
