//! Closed outlines of directed edges.
//!
//! The contracts promise exactly the loops that are drawn from the edges, by their corners; laws say that the definition leaves
//! nothing open, that the sides of the drawn loops are the edges in another order, and that the outlines wind as the edges do.
#![tactic(auto, using(scad_geom::proofs::Casts::casts))]

mod corners;
mod drawing;
mod edge_order;
mod joining;
pub mod laws;
mod remainder;

pub use joining::join;
