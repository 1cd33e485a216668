//! What is wanted of a part.

/// What is wanted of a part: its outlines, or its outlines and its printing program.
#[derive(Clone, Copy)]
pub enum Want {
    Outlines,
    Plan,
}
