//! Runs of infill.

/// A run of a line, from one whole place to another, in micrometres: x on a row, y on a column.
#[derive(Clone, Copy)]
pub struct Run {
    pub from: i32,
    pub to: i32,
}
