//! The variables that a scope assigns, and maps by names that are lent.
//! `bindings` gives exactly the names assigned in a scope, in the order of their first assignments, each with its last;
//! `NameMap` finds exactly the value that was last put for a name.
#![tactic(auto)]

mod binding;
mod name_map;
mod variables;

pub use binding::{Binding, Bindings};
pub use name_map::NameMap;
pub use variables::bindings;
