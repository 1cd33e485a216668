//! The convex ring round an edge by an octagon, and whether an edge comes within an octagon of a point.
//!
//! The contract promises that the ring's points are exactly the near ones, that it turns left at each corner, and where
//! it starts; and that the test tells exactly whether some point of the edge is near.
#![tactic(auto, using(scad_geom::proofs::Casts::casts))]

mod direction;
mod meeting;
mod octagon;
mod outline;
mod widening;

pub use meeting::octagon_meets;
pub use octagon::{reach, slant};
pub use outline::Ring;
pub use widening::ring;
