//! What a height changes.
ghost use Rattle.std.specs.Prelude.{◌<◌, ◌^◌, length, All};
ghost use Rattle.scad_geom.specs.Limits.{coordinate_limit};
ghost use Rattle.scad_geom.specs.Within.{IsEdgeWithin};
ghost use Rattle.scad_geom.specs.Level.{IsLevelWithin};

use crate::cursors::Cursors;
use crate::mark::Mark;
use scad_geom::{Edge, LeafEdge, Level};
use slice_sweep::Front;

/// A height, the front above it, and the marks of the strands below it.
#[derive(Clone, Copy)]
pub(crate) struct Height<'a> {
    pub(crate) edges: &'a [LeafEdge],
    pub(crate) at: &'a Level,
    pub(crate) front: &'a Front,
    pub(crate) below: &'a [Mark],
    ghost within: { All (λ e. IsEdgeWithin coordinate_limit e.edge) edges.now },
    ghost few: { length edges.now < 2 ^ 32 },
    ghost at_within: { IsLevelWithin coordinate_limit at.now },
}

/// The marks of the strands above a height, cursors on their front, and the edges that ended pieces gave.
#[derive(Drop)]
pub(crate) struct Open {
    pub(crate) marks: Vec<Mark>,
    pub(crate) cursors: Cursors,
    pub(crate) given: Vec<Edge>,
}
