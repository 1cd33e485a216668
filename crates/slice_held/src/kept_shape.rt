//! A shape and which of its leaves are in.

use crate::cell::Cell;

/// A shape and which of its leaves are in.
#[derive(Drop)]
pub struct Held {
    pub(crate) cells: Vec<Cell>,
    // For each leaf the number of its last cell, plus one; 0 for none.
    pub(crate) lasts: Vec<usize>,
    // For each cell of a leaf the number of the one before, plus one.
    pub(crate) earlier: Vec<usize>,
}
