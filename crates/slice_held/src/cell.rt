//! A leaf or an operation of a shape.

#[derive(Clone, Copy)]
pub(crate) struct Cell {
    /// The number of the operation that it is a member of, plus one; 0 for none.
    pub parent: usize,
    /// The number of the leaf, plus one; 0 for an operation.
    pub leaf: usize,
    /// Whether its operation counts it where it holds, or where it doesn't.
    pub raises: bool,
    /// Whether it holds where its count isn't 0, or where it is.
    pub any: bool,
    /// How many members are counted; of a leaf 1 where it's in, and 0 where it's out.
    pub count: usize,
}
