//! Stretches without a limit.

/// From one place to another, both counted; where the first one is the greater there is none.
#[derive(Clone, Copy)]
pub(crate) struct Reach {
    pub(crate) from: i128,
    pub(crate) to: i128,
}
