//! Which places of a row lie near to an edge.
ghost use Rattle.std.specs.Prelude.{◌≡◌, ◌<◌, ◌≤◌, ◌^◌, ◌+ℤ◌, ◌-ℤ◌, ◌<ℤ◌, ◌&&◌, int_le, pos, unsigned_abs};
ghost use Rattle.std.specs.Int.{int_min, int_max};
ghost use Rattle.scad_geom.specs.Limits.{coordinate_limit};
ghost use Rattle.scad_geom.specs.Within.{IsEdgeWithin};
ghost use Rattle.scad_geom.specs.Line.{low, high, rise, x_at};
ghost use Rattle.plan_support.specs.Near.{AreNear, line_reach, IsReach, IsClipped};
ghost use Rattle.plan_infill.specs.Quotient.{IsFloor, IsCeiling};

use crate::reach::Reach;
use plan_infill::Run;
use scad_geom::line::{high, low, rise, run, x_at};
use scad_geom::wide::{minus, plus, times};
use scad_geom::{Edge, Level};

/// The places of a row at a height that lie within the gap of some point of an edge along both axes.
pub(crate) fn near(e: &Edge, y: i32, gap: u32) -> Option<Run>
    requires edge { IsEdgeWithin coordinate_limit e.now }
    requires row { unsigned_abs y ≤ coordinate_limit }
    ensures { AreNear e.now y gap result }
{
    if is_beside(e, y, gap) {
        clipped(reached(e, y, gap))
    } else {
        None
    }
}

// Whether an edge has a point at a height within the gap of that of a row.
fn is_beside(e: &Edge, y: i32, gap: u32) -> bool
    requires { IsEdgeWithin coordinate_limit e.now }
    ensures { result ≡ (int_le ((low e.now).y -ℤ pos gap) y && int_le y ((high e.now).y +ℤ pos gap)) }
{
    starts_by(e, y, gap) && ends_from(e, y, gap)
}

fn starts_by(e: &Edge, y: i32, gap: u32) -> bool
    requires { IsEdgeWithin coordinate_limit e.now }
    ensures { result ≡ int_le ((low e.now).y -ℤ pos gap) y }
{
    minus(low(e).y as i128, signed(gap)) <= y as i128
}

fn ends_from(e: &Edge, y: i32, gap: u32) -> bool
    requires { IsEdgeWithin coordinate_limit e.now }
    ensures { result ≡ int_le y ((high e.now).y +ℤ pos gap) }
{
    y as i128 <= plus(high(e).y as i128, signed(gap))
}

fn signed(gap: u32) -> i128
    ensures value { result ≡ pos gap }
    ensures size { unsigned_abs result < 2 ^ 32 }
{
    gap as i128
}

// The places of a row to which an edge beside it comes near.
fn reached(e: &Edge, y: i32, gap: u32) -> Reach
    requires edge { IsEdgeWithin coordinate_limit e.now }
    requires row { unsigned_abs y ≤ coordinate_limit }
    ensures { IsReach e.now y gap result }
{
    let by_ends = reached_by_ends(e, gap);
    if rise(e) > 0 {
        both(by_ends, reached_by_line(e, y, gap))
    } else {
        by_ends
    }
}

// Those that aren't far to the left or right of both ends.
fn reached_by_ends(e: &Edge, gap: u32) -> Reach
    requires { IsEdgeWithin coordinate_limit e.now }
    ensures from { result.from ≡ int_min (low e.now).x (high e.now).x -ℤ pos gap }
    ensures to { result.to ≡ int_max (low e.now).x (high e.now).x +ℤ pos gap }
{
    Reach {
        from: minus(left_end(e), signed(gap)),
        to: plus(right_end(e), signed(gap)),
    }
}

fn left_end(e: &Edge) -> i128
    requires { IsEdgeWithin coordinate_limit e.now }
    ensures value { result ≡ int_min (low e.now).x (high e.now).x }
    ensures size { unsigned_abs result ≤ 2 ^ 31 }
{
    low(e).x.min(high(e).x) as i128
}

fn right_end(e: &Edge) -> i128
    requires { IsEdgeWithin coordinate_limit e.now }
    ensures value { result ≡ int_max (low e.now).x (high e.now).x }
    ensures size { unsigned_abs result ≤ 2 ^ 31 }
{
    low(e).x.max(high(e).x) as i128
}

// Those that aren't far to the left or right of the line.
fn reached_by_line(e: &Edge, y: i32, gap: u32) -> Reach
    requires edge { IsEdgeWithin coordinate_limit e.now }
    requires row { unsigned_abs y ≤ coordinate_limit }
    requires rises { pos 0 <ℤ rise e.now }
    ensures from { IsCeiling (x_at e.now y (pos 1) -ℤ line_reach e.now gap) (rise e.now) result.from }
    ensures to { IsFloor (x_at e.now y (pos 1) +ℤ line_reach e.now gap) (rise e.now) result.to }
{
    let x = row_x(e, y);
    let reach = line_reach(e, gap);
    Reach {
        from: ceiling(minus(x, reach), rise(e)),
        to: floor(plus(x, reach), rise(e)),
    }
}

// Where the line of an edge passes a row, over the edge's rise.
fn row_x(e: &Edge, y: i32) -> i128
    requires edge { IsEdgeWithin coordinate_limit e.now }
    requires row { unsigned_abs y ≤ coordinate_limit }
    ensures value { result ≡ x_at e.now y (pos 1) }
    ensures size { unsigned_abs result ≤ 2 ^ 89 }
{
    x_at(e, &Level { n: y as i128, d: 1 })
}

// How far the square's corners reach to the sides of an edge's line, times its rise.
fn line_reach(e: &Edge, gap: u32) -> i128
    requires { IsEdgeWithin coordinate_limit e.now }
    ensures value { result ≡ line_reach e.now gap }
    ensures size { unsigned_abs result ≤ 2 ^ 56 }
{
    times::<32, 24>(signed(gap), plus(run(e).abs(), rise(e)))
}

// What lies in both.
fn both(a: Reach, b: Reach) -> Reach
    ensures from { result.from ≡ int_max a.from b.from }
    ensures to { result.to ≡ int_min a.to b.to }
{
    Reach {
        from: a.from.max(b.from),
        to: a.to.min(b.to),
    }
}

// The places that a run can have.
fn clipped(reach: Reach) -> Option<Run>
    ensures { IsClipped reach.from reach.to result }
{
    let from = first_place(reach.from);
    let to = last_place(reach.to);
    if to < from {
        return None;
    }
    Some(Run {
        from: from as i32,
        to: to as i32,
    })
}

fn first_place(from: i128) -> i128
    ensures { result ≡ int_max from (pos 0 -ℤ pos 2147483648) }
{
    from.max(i32::MIN as i128)
}

fn last_place(to: i128) -> i128
    ensures { result ≡ int_min to (pos 2147483647) }
{
    to.min(i32::MAX as i128)
}

// The greatest whole number that is at most n / d.
fn floor(n: i128, d: i128) -> i128
    requires divisor { pos 0 <ℤ d }
    requires size { unsigned_abs n ≤ 2 ^ 100 }
    ensures { IsFloor n d result }
{
    n.div_euclid(d)
}

// The least whole number that is at least n / d.
fn ceiling(n: i128, d: i128) -> i128
    requires divisor { pos 0 <ℤ d }
    requires size { unsigned_abs n ≤ 2 ^ 100 }
    ensures { IsCeiling n d result }
{
    -(-n).div_euclid(d)
}
