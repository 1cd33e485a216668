//! The modules of the language by their names, and what their arguments say.
//!
//! The contracts promise the meaning of each name exactly, and of each transformation and primitive the
//! matrix or the sizes that its arguments say, or the one fault that they have.
#![tactic(auto)]

mod argument;
mod extrusions;
mod fault;
mod fineness;
mod flat_shape;
mod id;
mod module;
mod name;
mod outline;
mod polygons;
mod polyhedra;
mod primitive;
mod profile;
mod reading;
mod shape;
mod solid;
mod transform;

pub use argument::taken;
pub use extrusions::{linear_by, turned_by};
pub use fault::ArgumentFault;
pub use fineness::{Fineness, Resolution};
pub use flat_shape::outlines_of;
pub use module::{Extrusion, Flat, Module, Name, Shape, Transform};
pub use name::meaning_of;
pub use outline::{Outline, points_in, ring_of};
pub use primitive::Primitive;
pub use profile::{crosses_axis, profile_of, turns_of};
pub use shape::primitive_of;
pub use solid::{solid_of, triangles_of};
pub use transform::matrix_of;
