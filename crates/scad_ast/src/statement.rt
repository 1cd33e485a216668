//! Statements, definitions and scopes (OpenSCAD User Manual, "The OpenSCAD Language").

use crate::expression::{Args, Expr};
use scad_fault::{Place, Text};

/// The statements, assignments and definitions of a scope, in the order in which they are written.
pub type Scope = Vec<Item>;

/// The parameters of a module or a function.
pub type Params = Vec<Param>;

/// A program: its items in order.
#[derive(Drop)]
pub struct Program {
    pub scope: Scope,
}

/// A parameter, with its default where one is written.
pub struct Param {
    pub name: Text,
    pub default: Option<Expr>,
}

// Let go by one call wherever it is owned; what is derived is done in place there.
impl Drop for Param {
    fn drop(self) {
        let Param {
            name: _name,
            default: _default,
        } = self;
    }
}

/// What stands in a scope. The place is that of the first token.
#[cycle(statement)]
pub enum Item {
    Assign(Text, Expr, Place),
    Module(Text, Params, Scope, Place),
    Function(Text, Params, Expr, Place),
    Run(Stmt),
}

// Let go by one call wherever it is owned; what is derived is done in place there.
impl Drop for Item {
    #[cycle(drops)]
    fn drop(self) {
        match self {
            Item::Assign(_name, _value, _) => {}
            Item::Module(_name, _parameters, _body, _) => {}
            Item::Function(_name, _parameters, _body, _) => {}
            Item::Run(_statement) => {}
        }
    }
}

/// A statement that makes solids, or runs others. Its place is that of its name or keyword.
#[cycle(statement)]
pub struct Stmt {
    pub at: Place,
    /// It is marked `%`.
    pub percent: bool,
    /// It is marked `#`.
    pub hash: bool,
    pub body: StmtBody,
}

// Let go by one call wherever it is owned; what is derived is done in place there.
impl Drop for Stmt {
    #[cycle(drops)]
    fn drop(self) {
        let Stmt {
            at: _,
            percent: _,
            hash: _,
            body: _body,
        } = self;
    }
}

/// What a statement does.
#[cycle(statement)]
pub enum StmtBody {
    /// The name, the arguments and the children.
    Call(Text, Args, Scope),
    /// The test, and the children where it holds and where it doesn't.
    If(Expr, Scope, Scope),
}

// Let go by one call wherever it is owned; what is derived is done in place there.
impl Drop for StmtBody {
    #[cycle(drops)]
    fn drop(self) {
        match self {
            StmtBody::Call(_name, _arguments, _children) => {}
            StmtBody::If(_test, _held, _other) => {}
        }
    }
}
