//! Where an edge passes a height, and whole numbers on both sides of it.
ghost use Rattle.std.specs.Prelude.{◌≡◌, ◌*◌, ◌^◌, ◌≤◌, ◌*ℤ◌, ◌≤ℤ◌, true, unsigned_abs};
ghost use Rattle.std.specs.Ordering.{int_eq};
ghost use Rattle.scad_geom.specs.Limits.{coordinate_limit};
ghost use Rattle.scad_geom.specs.Line.{low, rise, x_at};
ghost use Rattle.scad_geom.specs.Within.{IsEdgeWithin};
ghost use Rattle.scad_geom.specs.Level.{IsLevelWithin};
ghost use Rattle.slice_bundles.specs.Bundles.{reaches};
ghost use Rattle.slice_sweep.specs.Spots.{IsBetween};

use crate::group::by_start;
use scad_geom::line::{low, rise, x_at};
use scad_geom::{Edge, Level};
use std::cmp::Ordering;

/// An x over a rise, which lies between two whole numbers.
#[derive(Clone, Copy)]
pub(crate) struct Spot {
    pub(crate) x: i128,
    pub(crate) up: i128,
    pub(crate) from: i32,
    pub(crate) to: i32,
    ghost x_size: { unsigned_abs x ≤ 2 ^ 89 },
    ghost up_size: { unsigned_abs up ≤ 2 * coordinate_limit },
}

/// Where an edge passes a height that it reaches: an edge that starts there does so at a whole x.
pub(crate) fn spot_on(e: &Edge, at: &Level) -> Spot
    requires edge { IsEdgeWithin coordinate_limit e.now }
    requires at { IsLevelWithin coordinate_limit at.now }
    requires reach { reaches e.now at.now at.now ≡ true }
    ensures x { result.x ≡ x_at e.now at.now.n at.now.d }
    ensures up { result.up ≡ rise e.now }
    ensures between { IsBetween at.now result.x result.up result.from result.to }
{
    let (x, up) = (x_at(e, at), rise(e));
    if starts_at(e, at) {
        let whole = low_x(e);
        return Spot {
            x,
            up,
            from: whole,
            to: whole,
        };
    }
    Spot {
        x,
        up,
        from: left_end(e),
        to: right_end(e),
    }
}

fn starts_at(e: &Edge, at: &Level) -> bool
    requires edge { IsEdgeWithin coordinate_limit e.now }
    requires at { IsLevelWithin coordinate_limit at.now }
    ensures { result ≡ int_eq ((low e.now).y *ℤ at.now.d) at.now.n }
{
    matches!(by_start(e, at), Ordering::Equal)
}

fn low_x(e: &Edge) -> i32
    ensures { result ≡ (low e.now).x }
{
    low(e).x
}

/// The x of an edge's leftmost point.
pub(crate) fn left_end(e: &Edge) -> i32
    ensures a { result ≤ℤ e.now.a.x }
    ensures b { result ≤ℤ e.now.b.x }
{
    if e.b.x < e.a.x { e.b.x } else { e.a.x }
}

/// The x of its rightmost point.
pub(crate) fn right_end(e: &Edge) -> i32
    ensures a { e.now.a.x ≤ℤ result }
    ensures b { e.now.b.x ≤ℤ result }
{
    if e.b.x < e.a.x { e.a.x } else { e.b.x }
}
