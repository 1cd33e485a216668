//! Stretches of a line.

/// The whole places from one on and before another.
#[derive(Clone, Copy)]
pub(crate) struct Stretch {
    pub(crate) from: i128,
    pub(crate) until: i128,
}
