//! Calls of functions and modules of a program.

use scad_ast::{Arg, Params};
use scad_scope::Kept;

/// What is called: its parameters, and the number of the frame where its definition stands.
#[derive(Clone, Copy)]
pub struct Callee<'p> {
    pub params: &'p Params,
    pub home: u32,
}

/// A call: what is called, its arguments, and the child statements, where some are kept.
#[derive(Clone, Copy)]
pub struct Invocation<'p> {
    pub callee: Callee<'p>,
    pub args: &'p [Arg],
    pub kept: Option<Kept<'p>>,
}
