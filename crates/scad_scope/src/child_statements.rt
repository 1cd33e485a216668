//! Child statements that are kept for later.

use scad_ast::Scope;

/// The child statements of a call, and the number of the frame where they are written.
#[derive(Clone, Copy)]
pub struct Kept<'p> {
    pub scope: &'p Scope,
    pub home: u32,
}
