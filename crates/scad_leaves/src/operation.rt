//! Set operations over the statements of a scope.

/// What is made of the trees of statements.
#[derive(Clone, Copy)]
pub enum Operation {
    Unite,
    Intersect,
    Subtract,
}
