//! Closed surfaces of triangles, in whole micrometres.
//!
//! The contracts promise that a `Triangles` is closed and in range, that it holds the fans of the faces in
//! their order, and each refusal of faces exactly.
#![tactic(auto)]

mod closedness;
mod face;
mod fan;
mod fans;
mod fault;
pub mod laws;
mod range;
mod ring;
mod side;
mod stacking;
mod triangle;
mod triangles;
mod wrapping;

pub use face::Face;
pub use fan::push_fan;
pub use fault::SolidFault;
pub use ring::Ring;
pub use side::Side;
pub use stacking::stack;
pub use triangle::Triangle;
pub use triangles::Triangles;
pub use wrapping::wrap;
