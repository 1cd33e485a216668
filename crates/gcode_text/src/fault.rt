//! Refusals of lines.

/// Why a line is refused. Each has the line's number, from 1.
#[derive(Clone, Copy)]
pub enum GFault {
    /// A command that the machine doesn't know, or a letter that the command doesn't have or that stands twice.
    UnknownWord(u32),
    /// What stands behind a letter is no number, or one out of range.
    BadNumber(u32),
}
