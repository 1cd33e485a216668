//! The runs of infill along one line of a layer, and which lines there are.
//!
//! The contract promises exactly the maximal stretches of whole points that are deep inside the outlines, by a definition
//! that asks each point of the line; between which lines sides lie, and the least line of a spacing from a place on.
#![tactic(auto, using(scad_geom::proofs::Casts::casts))]

mod extent;
mod infill;
pub mod laws;
mod line;
mod multiple;
mod near_steps;
mod quotient;
mod run;
mod step;
mod stretch;
mod sweep;
mod turn_steps;

pub use extent::{Extent, extent_of};
pub use infill::runs;
pub use line::Line;
pub use multiple::multiple_from;
pub use run::Run;
