//! The sample of a number: a source of a plate with 36 holes, whose radii the number gives.
//!
//! The contract promises exactly its text.
#![tactic(auto)]

mod radius;
mod source;

pub use source::sample_source;
