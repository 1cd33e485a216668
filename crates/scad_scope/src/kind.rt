//! What a scope defines beside variables.

/// Functions and modules have name spaces of their own.
#[derive(Clone, Copy)]
pub enum Kind {
    Function,
    Module,
}
