//! The files of a whole tree, written layer by layer: the part of `slice`, `plan` and `sample` that follows
//! evaluation.
//!
//! The contracts promise that the script of what is drawn of the tree is played, and the laws that a tree of solids
//! has one such part, whose layers hold what the tree contains.
#![tactic(auto)]

mod covers;
pub mod laws;
mod layer;
mod layer_count;
mod lines;
mod pieces;
mod plan_command;
mod slice_command;
mod summary;
mod tree_files;
mod tree_work;
mod workpiece;

pub use layer_count::{LAYER_LIMIT, count_layers};
pub use plan_command::plan;
pub use slice_command::slice;
pub use slice_work::{Summary, Want};
pub use summary::Written;
pub use tree_files::draw;
pub use workpiece::Workpiece;
