//! Matrices that place solids: three rows of four numbers, the last of each for the shift.
//!
//! The contracts promise that each entry of a product is the exact sum of products rounded once, and
//! that a placed point is the exact product rounded once to whole micrometres, or Range exactly where
//! one of these is out of range.
#![tactic(auto, using(scad_geom::proofs::Casts::casts))]

mod flat;
mod makers;
mod matrix;
mod mirroring;
mod placing;
mod products;

pub use makers::{Axis, of_rows, scale, translate, turn};
pub use matrix::{Matrix, MatrixFault, Row};
pub use mirroring::mirror;
