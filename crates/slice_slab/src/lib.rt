//! The edges between two neighbouring heights, from left to right, and those that meet a height as it rises: found
//! plainly, from all edges that meet the lower height.
//!
//! The contracts promise the edges that reach both heights in the order that they keep from the lower to the upper
//! one, with those that coincide in one bundle, and exactly the edges that meet the height.
#![tactic(auto, using(scad_geom::proofs::Casts::casts))]

mod collect;
mod group;
mod lifting;
mod lower_ends;
mod order;
mod passage;
mod rising_edges;
mod slab_bundles;

pub use rising_edges::Active;
pub use slab_bundles::slab;
