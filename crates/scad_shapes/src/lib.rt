//! Cubes, spheres, cylinders and polyhedra, placed by a matrix.
//!
//! The contracts promise exactly the triangles of each definition, each coordinate rounded once to whole
//! micrometres, each refusal exactly, and how many triangles there are.
#![tactic(auto, using(scad_geom::proofs::Casts::casts))]

mod count;
mod extent;
mod fault;
pub mod laws;
mod outline;
pub mod parts;
mod placing;
mod polyhedra;
mod prisms;
mod spheres;

pub use count::{Form, triangles_of};
pub use fault::ShapeFault;
pub use polyhedra::polyhedron;
pub use prisms::{cube, cylinder};
pub use spheres::sphere;
