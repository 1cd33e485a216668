//! Why tokens are refused.
use scad_fault::{Place, Text};

/// Why tokens are no program: the first token that has a fault.
#[derive(Drop)]
pub enum ParseFault {
    /// There was no memory.
    Memory,
    /// No program begins with the tokens up to this one.
    Syntax(Place),
    /// With this token more constructs are open than the limit.
    Nesting(Place),
    /// A form of the language that is left out, with its name.
    LeftOut(Place, Text),
}

/// A form of the language that is left out.
#[derive(Clone, Copy)]
pub(crate) enum Form {
    Function,
    Power,
    Include,
    Use,
    Root,
}

/// A fault as a reader remembers it.
#[derive(Clone, Copy)]
pub(crate) enum Fault {
    Memory,
    Syntax(Place),
    Nesting(Place),
    LeftOut(Place, Form),
}
