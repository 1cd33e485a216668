//! Expressions, arguments and the elements of vectors (OpenSCAD User Manual, "The OpenSCAD Language").

use crate::operator::{BinOp, UnOp};
use scad_fault::{Chars, Place, Text};
use scad_num::Num;

/// The arguments of a call, in the order in which they are written.
pub type Args = Vec<Arg>;

/// What stands between the brackets of a vector.
pub type Elems = Vec<Elem>;

/// An expression. Its place is that of its operator, its `?`, its `[` or its `.`, else of its first token.
#[cycle(expression)]
pub struct Expr {
    pub at: Place,
    pub node: Node,
}

// Let go by one call wherever it is owned; what is derived is done in place there.
impl Drop for Expr {
    #[cycle(drops)]
    fn drop(self) {
        let Expr { at: _, node: _node } = self;
    }
}

/// What an expression is (OpenSCAD manual, expressions).
#[cycle(expression)]
#[derive(Drop)]
pub enum Node {
    Undef,
    Bool(bool),
    Number(Num),
    Str(Chars),
    Name(Text),
    List(Elems),
    /// Start, step where one is written, and end.
    Range(Box<Expr>, Option<Box<Expr>>, Box<Expr>),
    Unary(UnOp, Box<Expr>),
    Binary(BinOp, Box<Expr>, Box<Expr>),
    /// `test ? chosen : other`
    Choose(Box<Expr>, Box<Expr>, Box<Expr>),
    Index(Box<Expr>, Box<Expr>),
    Member(Box<Expr>, Text),
    Call(Text, Args),
    Let(Args, Box<Expr>),
    Assert(Args, Box<Expr>),
    Echo(Args, Box<Expr>),
}

/// An argument, with its name where one is written.
#[cycle(expression)]
pub struct Arg {
    pub name: Option<Text>,
    pub value: Expr,
}

// Let go by one call wherever it is owned; what is derived is done in place there.
impl Drop for Arg {
    #[cycle(drops)]
    fn drop(self) {
        let Arg {
            name: _name,
            value: _value,
        } = self;
    }
}

/// An element of a vector. The place of a list comprehension is that of its keyword.
#[cycle(expression)]
#[derive(Drop)]
pub enum Elem {
    Item(Expr),
    Each(Box<Elem>, Place),
    /// `for (variables) element`
    For(Args, Box<Elem>, Place),
    /// `for (start; test; step) element`
    Loop(Args, Expr, Args, Box<Elem>, Place),
    Let(Args, Box<Elem>, Place),
    If(Expr, Box<Elem>, Option<Box<Elem>>, Place),
}
