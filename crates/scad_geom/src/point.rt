//! Points of a layer, and the edges between them.

/// The greatest size of a coordinate that the calls over edge lists take, in micrometres.
pub const COORDINATE_LIMIT: u32 = 1_100_000;

/// A point of a layer, in micrometres.
#[derive(Clone, Copy, PartialEq, Eq)]
pub struct Pt {
    pub x: i32,
    pub y: i32,
}

/// The straight edge that runs from `a` to `b`.
#[derive(Clone, Copy, PartialEq, Eq)]
pub struct Edge {
    pub a: Pt,
    pub b: Pt,
}
