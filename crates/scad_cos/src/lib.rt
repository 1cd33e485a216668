//! Cosines from a table of whole degrees, and the polygons that stand for circles.
//! Every result is the table's, by straight lines between whole degrees, as `specs/Cosine.antt` and
//! `specs/Circle.antt` say; `laws` has the laws of the cosine.
#![tactic(auto)]

mod circle;
mod cosine;
pub mod laws;
mod table;

pub use circle::{fragments, vertex_angle};
pub use cosine::{cos, sin};
