//! The operators of expressions (OpenSCAD User Manual, "Mathematical Operators").

/// A prefix operator: `!`, `+`, `-`.
#[derive(Clone, Copy)]
pub enum UnOp {
    Not,
    Plus,
    Minus,
}

/// An operator between two operands: `||`, `&&`, `==`, `!=`, `<`, `<=`, `>`, `>=`, `+`, `-`, `*`, `/`, `%`.
#[derive(Clone, Copy)]
pub enum BinOp {
    Or,
    And,
    Eq,
    Ne,
    Lt,
    Le,
    Gt,
    Ge,
    Add,
    Sub,
    Mul,
    Div,
    Rem,
}
