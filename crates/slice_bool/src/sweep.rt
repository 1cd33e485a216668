//! What a sweep goes over.
ghost use Rattle.std.specs.Prelude.{◌<◌, ◌^◌, length, All};
ghost use Rattle.scad_geom.specs.Limits.{coordinate_limit};
ghost use Rattle.scad_geom.specs.Within.{IsEdgeWithin};

use scad_geom::{LeafEdge, Shape};
use std::alloc::Global;

/// A shape over the leaves of an edge list.
#[derive(Clone, Copy)]
pub(crate) struct Sweep<'a> {
    pub(crate) alloc: Global,
    pub(crate) edges: &'a [LeafEdge],
    pub(crate) shape: &'a Shape,
    ghost within: { All (λ e. IsEdgeWithin coordinate_limit e.edge) edges.now },
    ghost few: { length edges.now < 2 ^ 32 },
}
