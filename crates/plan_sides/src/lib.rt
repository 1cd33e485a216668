//! The sides of a layer's outlines.
//!
//! The contracts promise the list of all sides, in order, and that it is closed.
#![tactic(auto, using(scad_geom::proofs::Casts::casts))]

pub mod laws;
mod list;

pub use list::sides;
