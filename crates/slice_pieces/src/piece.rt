//! Directed pieces of a border, and the points where they end.

use scad_geom::Level;

/// The point at the height of `at` whose x is `x / (run * at.d)`, in micrometres. `run` is the rise of an edge through the
/// point, or 1 where the point's x is whole.
#[derive(Clone, Copy)]
pub struct Spot {
    pub at: Level,
    pub x: i128,
    pub run: u32,
}

/// A straight piece of a border, with the inside on its left. `edge` is the number of an edge that it lies on.
#[derive(Clone, Copy)]
pub struct Piece {
    pub from: Spot,
    pub to: Spot,
    pub edge: u32,
}
