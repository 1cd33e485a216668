//! Refusals of faces.

/// Why faces bound no solid.
#[derive(Clone, Copy)]
pub enum SolidFault {
    /// A directed side of differing points doesn't occur as often as its reverse.
    NotClosed,
    /// No point has this number.
    BadIndex(u32),
    /// A coordinate passes `scad_geom::POINT_LIMIT` in size.
    CoordinateRange,
    /// Memory ran out.
    Memory,
}
