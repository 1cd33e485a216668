//! What is told of files that were written.

use slice_work::Summary;

/// What is told of a tree whose files were written: the numbers of its layers, and how many bytes each file has.
#[derive(Clone, Copy)]
pub struct Written {
    pub summary: Summary,
    pub cli: u64,
    pub gcode: u64,
}

/// How many bytes were written to each output.
#[derive(Clone, Copy)]
pub struct Sizes {
    pub cli: u64,
    pub gcode: u64,
}
