//! What a pass knows of the layers that it drew. No value of these types is made but the size of a board.
use std::collections::LinkedList;

/// Layers are named by their numbers, which begin at 0; a list has them in the order in which they came.
pub struct View {
    /// How many layers the board has.
    pub count: u32,
    /// How many member numbers were given, in the pass with member 0; else 0.
    pub given: u32,
    /// The numbers of the passes that were made one.
    pub members: LinkedList<u32>,
    pub drawn: LinkedList<u32>,
    /// The layer that was drawn last, until it is skipped, failed or finished.
    pub pending: Option<u32>,
    pub finished: LinkedList<u32>,
    pub failed: LinkedList<u32>,
    pub skipped: LinkedList<u32>,
    /// Whether it was told that all layers are drawn.
    pub ended: bool,
}

/// How many layers a board has, and how many workers may draw them.
#[derive(Clone, Copy)]
pub struct Size {
    pub count: u32,
    pub workers: u32,
}
