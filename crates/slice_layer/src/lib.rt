//! The outlines of a tree of solids at a layer.
//!
//! The contracts promise that, more than one micrometre from each exact cut of the tree, the outlines wind once round
//! what the tree contains and not at all round anything else.
#![tactic(auto)]

pub mod laws;
mod layer;

pub use layer::layer_outlines;
