//! Points of a solid.
ghost use Rattle.std.specs.Prelude.{◌≡◌};
ghost use Rattle.scad_geom.specs.PointRange.{is_in_range};

/// The greatest size of a coordinate of a solid, in micrometres.
pub const POINT_LIMIT: u32 = 1_000_000;

/// A point of a solid, in micrometres.
#[derive(Clone, Copy, PartialEq, Eq, PartialOrd, Ord)]
pub struct Pt3 {
    pub x: i32,
    pub y: i32,
    pub z: i32,
}

/// Whether no coordinate passes `POINT_LIMIT` in size.
pub fn is_in_range(p: Pt3) -> bool
    ensures { result ≡ is_in_range p }
{
    p.x.unsigned_abs() <= POINT_LIMIT
        && p.y.unsigned_abs() <= POINT_LIMIT
        && p.z.unsigned_abs() <= POINT_LIMIT
}
