//! From one height to the next.
ghost use Rattle.std.specs.Prelude.{◌<◌, ◌^◌, ℤ, ◌<ℤ◌, length, All};
ghost use Rattle.scad_geom.specs.Limits.{coordinate_limit};
ghost use Rattle.scad_geom.specs.Within.{IsEdgeWithin};
ghost use Rattle.scad_geom.specs.Level.{IsLevelWithin};
ghost use Rattle.slice_sweep.specs.Keys.{IsBelowKey};

use scad_geom::{LeafEdge, Level};
use std::alloc::Global;

/// Two neighbouring heights of edges, and the key of the lower one.
#[derive(Clone, Copy)]
pub(crate) struct Step<'a> {
    pub(crate) alloc: Global,
    pub(crate) edges: &'a [LeafEdge],
    pub(crate) lower: &'a Level,
    pub(crate) upper: &'a Level,
    pub(crate) key: i128,
    ghost within: { All (λ e. IsEdgeWithin coordinate_limit e.edge) edges.now },
    ghost few: { length edges.now < 2 ^ 32 },
    ghost lower_within: { IsLevelWithin coordinate_limit lower.now },
    ghost upper_within: { IsLevelWithin coordinate_limit upper.now },
    ghost key_is: { (wake : ℤ) → key <ℤ wake → IsBelowKey lower.now wake },
}
