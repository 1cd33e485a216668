//! Sections of solids: the edges in which the plane of a layer cuts a closed surface, in whole micrometres.
//!
//! The contracts promise the edges of the section by its definition, in the order of the triangles, that
//! they are balanced: at each point as many edges start as end, and which points the exact cuts wind round.
#![tactic(auto, using(scad_geom::proofs::Casts::casts))]

mod cut;
mod exact;
mod inside;
mod plane;
mod sections;

pub use inside::contains;
pub use sections::section;
