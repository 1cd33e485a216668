//! Functions of the program, as they stand in memory.

use scad_ast::{Expr, Params};

/// The parameters and the expression of a function.
#[derive(Clone, Copy)]
pub struct Defined<'p> {
    pub params: &'p Params,
    pub body: &'p Expr,
}

/// A function, with the number of the frame where its definition stands.
#[derive(Clone, Copy)]
pub struct DefinedAt<'p> {
    pub function: Defined<'p>,
    pub home: u32,
}
