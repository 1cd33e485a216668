//! Lines of infill.

/// A line along an axis, at a whole coordinate in micrometres.
#[derive(Clone, Copy)]
pub enum Line {
    /// From left to right, at this y.
    Row(i32),
    /// Upwards, at this x.
    Column(i32),
}
