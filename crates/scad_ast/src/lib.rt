//! The syntax tree of an OpenSCAD program, with the place of each of its parts.
//! It promises nothing but its shape, which the parser's contract speaks of.
#![tactic(auto)]

mod expression;
mod operator;
mod printing;
mod statement;

pub use expression::{Arg, Args, Elem, Elems, Expr, Node};
pub use operator::{BinOp, UnOp};
pub use printing::print;
pub use statement::{Item, Param, Params, Program, Scope, Stmt, StmtBody};
