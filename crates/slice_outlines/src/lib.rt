//! The outlines of a shape over the leaves of an edge list, by a sweep upwards that keeps what doesn't change.
//!
//! The contract promises exactly the outlines of `outlines` of slice_bool: those that the pieces of the border make.
#![tactic(auto, using(scad_geom::proofs::Casts::casts))]

mod above;
mod aside;
mod changing;
mod course;
mod cursor;
mod cursors;
mod flat;
mod flats;
mod groups;
mod height;
mod mark;
mod outlining;
mod passing;
mod run;
mod side;
mod spot;
mod stops;
mod stretch;
mod sweep;

pub use outlining::outlines;
