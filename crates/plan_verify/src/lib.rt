//! Judges the extruding moves of a printing program by the outlines of a file.
//!
//! The contract promises whether each of them stays inside the outlines of its layer by the clearance, or which is the
//! first that doesn't, or which line of the program is the first that the machine refuses.
#![tactic(auto, using(scad_geom::proofs::Casts::casts))]

mod court;
mod extent;
mod field;
mod height;
mod index;
mod judgement;
pub mod laws;
mod line;
mod trial;
mod verdict;

pub use court::check;
pub use verdict::{Verdict, VerifyFault};
