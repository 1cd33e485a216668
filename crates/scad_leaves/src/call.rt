//! Calls of modules, as they stand in memory.

use scad_ast::{Args, Scope};
use scad_fault::Place;

/// A call of a module, with its arguments and its children as they are written.
#[derive(Clone, Copy)]
pub struct Call<'p> {
    /// Where the name stands.
    pub at: Place,
    pub name: &'p [u8],
    pub args: &'p Args,
    /// The children.
    pub all: &'p Scope,
}
