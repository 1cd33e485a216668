//! Extrusions of flat shapes, placed by a matrix: prisms over an outline, and outlines turned round the z axis.
//!
//! The contracts promise exactly the triangles of each definition, each coordinate rounded once to whole
//! micrometres, each refusal exactly, how many triangles there are, and which points a prism contains.
#![tactic(auto, using(scad_geom::proofs::Casts::casts))]

mod count;
mod outlines;
mod prisms;
mod turns;

pub use count::{FlatForm, triangles_of};
pub use outlines::{circle_ring, square_ring};
pub use prisms::linear;
pub use turns::turned;
