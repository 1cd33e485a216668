//! Modules of the program, as they stand in memory.

use scad_ast::{Params, Scope};

/// The parameters and the body of a module.
#[derive(Clone, Copy)]
pub(crate) struct Defined<'p> {
    pub(crate) params: &'p Params,
    pub(crate) body: &'p Scope,
}

/// A module, with the number of the frame where its definition stands.
#[derive(Clone, Copy)]
pub(crate) struct DefinedAt<'p> {
    pub(crate) module: Defined<'p>,
    pub(crate) home: u32,
}
