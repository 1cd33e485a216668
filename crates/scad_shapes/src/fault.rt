//! Refusals of shapes.

/// Why there is no solid.
#[derive(Clone, Copy)]
pub enum ShapeFault {
    /// A placed coordinate passes `scad_geom::POINT_LIMIT` in size.
    CoordinateRange,
    /// A directed side of differing points doesn't occur as often as its reverse.
    NotClosed,
    /// Memory ran out.
    Memory,
}
