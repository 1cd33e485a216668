//! What changes from one slab to the next.

/// Strands that a height put in the place of others: their place among those above the height, how many of those below
/// it are gone, and how many have come.
#[derive(Clone, Copy)]
pub struct Change {
    pub from: usize,
    pub gone: usize,
    pub come: usize,
}
