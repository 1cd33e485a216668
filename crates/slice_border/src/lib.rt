//! The border between inside and outside of a shape over the leaves of an edge list, as a definition: its pieces and the
//! outlines that they make, their laws, and what both bodies that find them share.
//!
//! The laws promise that the pieces wind once round each point that the shape holds and round no other, and that the
//! outlines hold what the shape holds and lie near its border.
#![tactic(auto, using(scad_geom::proofs::Casts::casts))]

mod fault;
pub mod laws;
mod stop;
mod stops;
mod tally;

pub use fault::BoolFault;
pub use stop::{Stop, compare, spot_on, whole_spot};
pub use stops::distinct_stops;
pub use tally::Tally;
