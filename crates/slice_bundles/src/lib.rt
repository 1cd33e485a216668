//! The edges between two neighbouring heights in bundles, from left to right, as a definition with its law, and those
//! that meet a height; the bundle that the crates above make.
//!
//! The law promises that bundles ordered at the lower height keep their order up to the upper one.
#![tactic(auto, using(scad_geom::proofs::Casts::casts))]

mod bundle;
pub mod laws;
mod numbers;
mod start;

pub use bundle::Bundle;
pub use start::Start;
