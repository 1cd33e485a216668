//! Where edges come near along a line.
ghost use Rattle.std.specs.Prelude.{◌≡◌, ◌+◌, ◌^◌, ◌<◌, ◌≤◌, ◌&&◌, ◌+ℤ◌, ◌-ℤ◌, pos, ◌<ℤ◌, int_lt, unsigned_abs, OnOk};
ghost use Rattle.std.specs.Int.{int_min, int_max};
ghost use Rattle.scad_geom.specs.Limits.{coordinate_limit};
ghost use Rattle.scad_geom.specs.Within.{IsEdgeWithin};
ghost use Rattle.scad_geom.specs.Line.{low, high, rise};
ghost use Rattle.scad_ring.specs.Octagon.{reach};
ghost use Rattle.scad_ring.specs.Tests.{breadth};
ghost use Rattle.plan_infill.specs.declared.line.Line.TheVariants.{Row, Column};
ghost use Rattle.plan_infill.specs.Steps.{Adds, Counts, AreNearSteps};
ghost use Rattle.plan_infill.specs.Runs.{IsLineWithin};
ghost use Rattle.plan_infill.specs.Reach.{exchanged, line_reach, is_beside, around, IsBesideEnds, IsBesideLine, IsReached, AreThose};

use crate::line::Line;
use crate::quotient::{ceiling, floor};
use crate::step::Step;
use crate::stretch::Stretch;
use scad_geom::line::{high, low, rise, run, x_at};
use scad_geom::whole::span;
use scad_geom::wide::{minus, plus, times};
use scad_geom::{Edge, Level, Pt};
use scad_ring::slant;
use std::alloc::AllocError;

/// Adds where an edge comes within the octagon of `c` round the points of a line, and where no longer.
pub(crate) fn push_near_steps(
    steps: &mut Vec<Step>,
    e: &Edge,
    line: Line,
    c: u32,
) -> Result<(), AllocError>
    requires edge { IsEdgeWithin coordinate_limit e.now }
    requires line { IsLineWithin coordinate_limit line }
    ensures { OnOk result (Adds (AreNearSteps c line e.now) steps.old.items steps.new.items) }
{
    match line {
        Line::Row(y) => push_on_row(steps, e, y, c),
        Line::Column(x) => push_on_row(steps, &exchanged(e), x, c),
    }
}

fn exchanged(e: &Edge) -> Edge
    ensures value { result ≡ exchanged e.now }
    ensures within { IsEdgeWithin coordinate_limit e.now → IsEdgeWithin coordinate_limit result }
{
    Edge {
        a: Pt { x: e.a.y, y: e.a.x },
        b: Pt { x: e.b.y, y: e.b.x },
    }
}

fn push_on_row(steps: &mut Vec<Step>, e: &Edge, y: i32, c: u32) -> Result<(), AllocError>
    requires edge { IsEdgeWithin coordinate_limit e.now }
    requires row { unsigned_abs y ≤ coordinate_limit }
    ensures { OnOk result (Adds (AreNearSteps c (Row y) e.now) steps.old.items steps.new.items) }
{
    if is_beside(e, y, c) {
        push_stretch(steps, reached(e, y, c))?;
    }
    Ok(())
}

// Whether an edge has a point at a height nearer than c to that of a row; none is nearer than 0.
fn is_beside(e: &Edge, y: i32, c: u32) -> bool
    ensures { result ≡ is_beside c y e.now }
{
    let starts = is_short(y, low(e).y, c);
    let ends = is_short(high(e).y, y, c);
    0 < c as i64 && (starts && ends)
}

// Whether it is less than c up from one height to another.
fn is_short(from: i32, to: i32, c: u32) -> bool
    ensures { result ≡ int_lt (to -ℤ from) (pos c) }
{
    span(from, to) < c as i64
}

fn push_stretch(steps: &mut Vec<Step>, stretch: Stretch) -> Result<(), AllocError>
    ensures { OnOk result (Adds (Counts stretch) steps.old.items steps.new.items) }
{
    if stretch.from < stretch.until {
        steps.push(Step::of_near(stretch.from, 1))?;
        steps.push(Step::of_near(stretch.until, -1))?;
    }
    Ok(())
}

// The places of a row to which an edge beside it comes near.
fn reached(e: &Edge, y: i32, c: u32) -> Stretch
    requires edge { IsEdgeWithin coordinate_limit e.now }
    requires row { unsigned_abs y ≤ coordinate_limit }
    ensures { IsReached c y e.now result }
{
    let by_ends = reached_by_ends(e, y, c);
    if rise(e) > 0 {
        both(by_ends, reached_by_line(e, y, c))
    } else {
        by_ends
    }
}

// Those that aren't far from both ends, across or aslant.
fn reached_by_ends(e: &Edge, y: i32, c: u32) -> Stretch
    requires row { unsigned_abs y ≤ coordinate_limit }
    ensures { AreThose (IsBesideEnds c y e.now) result }
{
    let (from, to, up) = (low(e), high(e), y as i128);
    let across = around(from.x as i128, to.x as i128, c as i128, 0);
    let rising = around(sum(from), sum(to), half_sum(c), up);
    let falling = around(difference(from), difference(to), half_sum(c), minus(0, up));
    both(across, both(rising, falling))
}

// The places that, moved on by a way, lie less than `w` from what lies between `a` and `b`.
fn around(a: i128, b: i128, w: i128, way: i128) -> Stretch
    requires a { unsigned_abs a ≤ 2 ^ 33 }
    requires b { unsigned_abs b ≤ 2 ^ 33 }
    requires w { unsigned_abs w ≤ 2 ^ 33 }
    requires way { unsigned_abs way ≤ 2 ^ 33 }
    ensures from { result.from ≡ (around w a b way).from }
    ensures until { result.until ≡ (around w a b way).until }
{
    Stretch {
        from: minus(plus(minus(lesser(a, b), w), 1), way),
        until: minus(plus(greater(a, b), w), way),
    }
}

fn lesser(a: i128, b: i128) -> i128
    requires a { unsigned_abs a ≤ 2 ^ 33 }
    requires b { unsigned_abs b ≤ 2 ^ 33 }
    ensures value { result ≡ int_min a b }
    ensures size { unsigned_abs result ≤ 2 ^ 33 }
{
    a.min(b)
}

fn greater(a: i128, b: i128) -> i128
    requires a { unsigned_abs a ≤ 2 ^ 33 }
    requires b { unsigned_abs b ≤ 2 ^ 33 }
    ensures value { result ≡ int_max a b }
    ensures size { unsigned_abs result ≤ 2 ^ 33 }
{
    a.max(b)
}

// How far the octagon of `c` reaches along the sum of both axes.
fn half_sum(c: u32) -> i128
    ensures value { result ≡ pos (reach c) }
    ensures size { unsigned_abs result ≤ 2 ^ 33 }
{
    c as i128 + slant(c) as i128
}

fn sum(p: Pt) -> i128
    ensures value { result ≡ p.x +ℤ p.y }
    ensures size { unsigned_abs result ≤ 2 ^ 33 }
{
    p.x as i128 + p.y as i128
}

fn difference(p: Pt) -> i128
    ensures value { result ≡ p.x -ℤ p.y }
    ensures size { unsigned_abs result ≤ 2 ^ 33 }
{
    p.x as i128 - p.y as i128
}

// Those that aren't far to the left or right of the line.
fn reached_by_line(e: &Edge, y: i32, c: u32) -> Stretch
    requires edge { IsEdgeWithin coordinate_limit e.now }
    requires row { unsigned_abs y ≤ coordinate_limit }
    requires rises { pos 0 <ℤ rise e.now }
    ensures { AreThose (IsBesideLine c y e.now) result }
{
    let x = x_at(e, &Level { n: y as i128, d: 1 });
    let reach = line_reach(e, c);
    Stretch {
        from: plus(floor(minus(x, reach), rise(e)), 1),
        until: ceiling(plus(x, reach), rise(e)),
    }
}

fn line_reach(e: &Edge, c: u32) -> i128
    requires edge { IsEdgeWithin coordinate_limit e.now }
    ensures value { result ≡ line_reach c e.now }
    ensures size { unsigned_abs result ≤ 2 ^ 60 }
{
    breadth(c as i128, slant(c) as i128, run(e), rise(e))
}

// How far the corners of the octagon with the corner (s, t) reach to the sides of a way that doesn't fall, times its
// length.
fn breadth(s: i128, t: i128, x: i128, y: i128) -> i128
    requires s { unsigned_abs s ≤ 2 ^ 32 }
    requires t { unsigned_abs t ≤ 2 ^ 32 }
    requires x { unsigned_abs x ≤ 2 ^ 24 }
    requires y { unsigned_abs y ≤ 2 ^ 24 }
    ensures value { result ≡ breadth s t x y }
    ensures size { unsigned_abs result ≤ 2 ^ 60 }
{
    if y <= x {
        plus(times::<32, 24>(s, x), times::<32, 24>(t, y))
    } else if plus(x, y) <= 0 {
        minus(times::<32, 24>(t, y), times::<32, 24>(s, x))
    } else if 0 <= x {
        plus(times::<32, 24>(s, y), times::<32, 24>(t, x))
    } else {
        minus(times::<32, 24>(s, y), times::<32, 24>(t, x))
    }
}

// What lies in two stretches.
fn both(a: Stretch, b: Stretch) -> Stretch
    ensures from { result.from ≡ int_max a.from b.from }
    ensures until { result.until ≡ int_min a.until b.until }
{
    Stretch {
        from: a.from.max(b.from),
        until: a.until.min(b.until),
    }
}
