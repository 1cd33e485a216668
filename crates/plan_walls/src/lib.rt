//! The walls of a layer: loops that run along its outlines at a distance.
//!
//! The contract promises exactly the outlines of what lies inside the given ones and outside of the ring round each of
//! their sides, and that each point of the loops keeps its distance from these sides and lies inside.
#![tactic(auto, using(scad_geom::proofs::Casts::casts))]

mod edges;
pub mod laws;
mod shape;
mod wall_loops;

pub use wall_loops::walls;
