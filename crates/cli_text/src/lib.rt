//! Writes layers as text in the ASCII form of the Common Layer Interface 2.0.
//!
//! The contracts promise the exact text of each part, and that the output is as it was where memory
//! ran out.
#![tactic(auto, using(scad_geom::proofs::Casts::casts))]

mod hatches;
mod polyline;
mod writer;

pub use writer::{write_end, write_head, write_layer};
