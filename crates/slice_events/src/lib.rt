//! The heights at which the order of edges may change.
//!
//! The contracts promise the distinct heights of all ends and meetings, ascending, and the exact count of crossings
//! where it is refused, and how many pairs of edges were compared.
#![tactic(auto, using(scad_geom::proofs::Casts::casts))]

mod buckets;
mod comparison;
mod distinct;
mod ends;
mod events;
mod height;
pub mod laws;
mod line;
mod lines;
mod meeting;
mod stay;

pub use events::{CROSSING_LIMIT, EventFault, levels, levels_counted};
