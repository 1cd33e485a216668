//! Lines of layers.
use crate::lists::Lists;

/// What the work on lines is for: their number is judged before memory is taken for the stretches.
#[derive(Clone, Copy, PartialEq, Eq)]
pub(crate) enum Want {
    Count,
    Stretches,
}

/// What lies below higher layers on a line.
#[derive(Drop)]
pub(crate) struct Line {
    /// Which line it is: the place of its height.
    pub(crate) number: u32,
    /// How many stretches it has in all layers.
    pub(crate) count: u64,
    /// Where they are wanted those of each layer that has some, from the highest such layer down to the lowest of all.
    pub(crate) covers: Lists,
}
