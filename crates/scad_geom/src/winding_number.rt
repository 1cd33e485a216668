//! The winding number of an edge list round a point.
ghost use Rattle.std.specs.Prelude.{◌≡◌, ◌+◌, ◌*◌, ◌^◌, ◌<◌, ◌≤◌, ◌-ℤ◌, ◌*ℤ◌, pos, true, int_lt, unsigned_abs, length, All};
ghost use Rattle.scad_geom.specs.Limits.{coordinate_limit};
ghost use Rattle.scad_geom.specs.Within.{IsWithin, IsEdgeWithin};
ghost use Rattle.scad_geom.specs.Point.{whole, halves};
ghost use Rattle.scad_geom.specs.Segment.{segments};
ghost use Rattle.scad_geom.specs.Half.{meant};
ghost use Rattle.scad_geom.specs.Winding.{counted, turn, wind};

use crate::half::Half;
use crate::point::{Edge, Pt};
use crate::whole::{minus, plus, times};

/// How often the edges turn round the point, counter-clockwise turns counted up and clockwise ones
/// down: each edge that crosses the ray from the point to the right counts, as 1 where it goes
/// upwards and as -1 where it goes downwards. A point on an edge counts with the side above it, then
/// with the side to its right.
pub fn winding(edges: &[Edge], p: Pt, half: Half) -> i64
    requires edges { All (IsEdgeWithin coordinate_limit) edges.now }
    requires point { IsWithin coordinate_limit p }
    requires few { length edges.now < 2 ^ 32 }
    ensures { result ≡ wind (meant half p) (segments edges.now) }
{
    sum_of_crossings(edges, half.doubled(p.x), half.doubled(p.y))
}

// The winding number round a point whose coordinates are doubled.
#[tactic(auto, using(crate::proofs::Casts::casts, crate::proofs::Crossings::wind_more))]
fn sum_of_crossings(edges: &[Edge], x: i64, y: i64) -> i64
    requires edges { All (IsEdgeWithin coordinate_limit) edges.now }
    requires x { unsigned_abs x ≤ 2 ^ 22 }
    requires y { unsigned_abs y ≤ 2 ^ 22 }
    requires few { length edges.now < 2 ^ 32 }
    ensures { result ≡ wind (halves x y) (segments edges.now) }
{
    let mut sum = 0;
    'edges: for edge in edges {
        sum = plus(sum, crossing(edge, x, y));
    }
    sum
}

// The edge's turn round the point, whose coordinates are doubled.
fn crossing(edge: &Edge, x: i64, y: i64) -> i64
    requires edge { IsEdgeWithin coordinate_limit edge.now }
    requires x { unsigned_abs x ≤ 2 ^ 22 }
    requires y { unsigned_abs y ≤ 2 ^ 22 }
    ensures value { result ≡ turn true true (halves x y) (whole edge.now.a) (whole edge.now.b) }
    ensures size { unsigned_abs result ≤ 1 }
{
    let step = passage(edge, y);
    if step == 0 {
        return 0;
    }
    if times::<0, 47>(step, side_at(edge, x, y)) > 0 {
        step
    } else {
        0
    }
}

// How the edge passes the height, which is doubled.
fn passage(edge: &Edge, y: i64) -> i64
    ensures value { result ≡ counted (int_lt y (pos 2 *ℤ edge.now.b.y)) -ℤ counted (int_lt y (pos 2 *ℤ edge.now.a.y)) }
    ensures size { unsigned_abs result ≤ 1 }
{
    i64::from(is_above(edge.b, y)) - i64::from(is_above(edge.a, y))
}

fn is_above(end: Pt, y: i64) -> bool
    ensures { result ≡ int_lt y (pos 2 *ℤ end.y) }
{
    y < 2 * end.y as i64
}

// On which side of the edge the point lies, whose coordinates are doubled.
fn side_at(edge: &Edge, x: i64, y: i64) -> i64
    requires edge { IsEdgeWithin coordinate_limit edge.now }
    requires x { unsigned_abs x ≤ 2 ^ 22 }
    requires y { unsigned_abs y ≤ 2 ^ 22 }
    ensures value { result
        ≡ (pos 2 *ℤ edge.now.b.x -ℤ pos 2 *ℤ edge.now.a.x) *ℤ (y -ℤ pos 2 *ℤ edge.now.a.y)
        -ℤ (pos 2 *ℤ edge.now.b.y -ℤ pos 2 *ℤ edge.now.a.y) *ℤ (x -ℤ pos 2 *ℤ edge.now.a.x) }
    ensures size { unsigned_abs result ≤ 2 ^ 47 }
{
    let left = times::<23, 23>(doubled_span(edge.a.x, edge.b.x), gap(edge.a.y, y));
    let right = times::<23, 23>(doubled_span(edge.a.y, edge.b.y), gap(edge.a.x, x));
    minus(left, right)
}

// How far one coordinate is above another, doubled.
fn doubled_span(from: i32, to: i32) -> i64
    ensures value { result ≡ pos 2 *ℤ to -ℤ pos 2 *ℤ from }
    ensures size { unsigned_abs result ≤ 2 * unsigned_abs to + 2 * unsigned_abs from }
{
    minus(2 * to as i64, 2 * from as i64)
}

// How far a doubled coordinate is above another, which is not doubled yet.
fn gap(from: i32, to: i64) -> i64
    requires { unsigned_abs to ≤ 2 ^ 62 }
    ensures value { result ≡ to -ℤ pos 2 *ℤ from }
    ensures size { unsigned_abs result ≤ unsigned_abs to + 2 * unsigned_abs from }
{
    minus(to, 2 * from as i64)
}
