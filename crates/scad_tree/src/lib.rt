//! Trees of solids under union, intersection and difference, in normal form.
//!
//! The contracts promise the tree of each operation exactly, that it is in normal form, and that it
//! contains a point exactly where the set operations of its members say so.
#![tactic(auto)]

mod height;
mod inside;
pub mod laws;
mod nesting;
mod node;
mod normal;
mod number;
mod operations;
mod points;
mod sections;
mod shape;
mod sizes;
mod solids;
mod text;
mod tree;
mod unions;

pub use node::Node;
pub use operations::{intersect, subtract, unite};
pub use tree::Tree;
