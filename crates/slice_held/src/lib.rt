//! The value of a shape, kept while its leaves go in and out.
//!
//! The contract promises that the value is always that of the shape over the leaves that are in.
#![tactic(auto)]

mod cell;
mod chain;
mod counts;
mod kept_shape;
mod leaf_cells;
mod value;

pub use kept_shape::Held;
