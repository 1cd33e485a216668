//! Frames of names with their values, and the functions and modules that hold there.
//! `Frames` finds a name exactly where a frame or one of those round it has it, and a function or module exactly as its
//! scope defines it last.
#![tactic(auto)]

mod child_statements;
mod entries;
mod frame;
mod frame_names;
mod frames;
mod further_names;
mod home;
mod kind;
mod named_values;
mod names;
mod place_search;
mod placed_values;
mod resolution;
mod slot;
mod table;
mod word;

pub use child_statements::Kept;
pub use frames::Frames;
pub use kind::Kind;
pub use names::Names;
pub use resolution::resolve;
pub use slot::{Slot, Slots};
