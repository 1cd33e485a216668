//! Pieces of the border of a shape, with exact ends, and what becomes of them: merged pieces, rounded edges, and those that
//! are left where opposite ones cancel.
//!
//! The types state how an end is written: a height, and an x over the height's divisor and a rise. The definitions state what
//! lists of pieces are for the crates above: their points, ends, winding, balance and names, and what they are merged and
//! rounded to. The contracts promise exactly the rounded points and the edges that are left, and laws of merging and
//! cancelling.
#![tactic(auto, using(scad_geom::proofs::Casts::casts))]

mod cancelling;
pub mod laws;
mod piece;
mod rounding;
mod spans;

pub use cancelling::cancel;
pub use piece::{Piece, Spot};
pub use rounding::{has_length, rounded};
