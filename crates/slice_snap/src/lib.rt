//! Pieces of the border of a shape, merged and rounded to edges: what follows on the pieces that are found plainly.
//!
//! The contracts promise exactly the merged pieces and the rounded edges of the definitions of slice_pieces.
#![tactic(auto, using(scad_geom::proofs::Casts::casts))]

mod alone;
mod chains;
mod end;
mod end_order;
mod merging;
mod rounding;
mod spots;

pub use merging::merge;
pub use rounding::round;
pub use slice_pieces::{Piece, Spot, cancel, has_length};
