//! The border between inside and outside of a shape over the leaves of an edge list: its pieces and its outlines.
//!
//! The contracts promise exactly the pieces of the definition, which speaks of the shape's values on both sides of the
//! border alone, that they wind once round each point that the shape holds and round no other, and exactly the outlines
//! that these pieces make.
#![tactic(auto, using(scad_geom::proofs::Casts::casts))]

mod beside;
mod border;
mod border_piece;
mod covering;
mod flat;
mod near;
mod outlining;
mod slab;
mod stops;
mod sweep;

pub use border::pieces;
pub use outlining::outlines;
pub use slice_border::BoolFault;
