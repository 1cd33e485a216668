//! Where the winding number changes along a line.
ghost use Rattle.std.specs.Prelude.{◌≡◌, ◌+◌, ◌^◌, ◌≤◌, ◌&&◌, pos, ◌<ℤ◌, ◌≤ℤ◌, unsigned_abs, OnOk};
ghost use Rattle.scad_geom.specs.Limits.{coordinate_limit};
ghost use Rattle.scad_geom.specs.Within.{IsEdgeWithin};
ghost use Rattle.scad_geom.specs.Line.{low, high, rise, run, x_at, left_of, heading};
ghost use Rattle.plan_infill.specs.declared.line.Line.TheVariants.{Row, Column};
ghost use Rattle.plan_infill.specs.Steps.{Adds, AreTurnSteps};
ghost use Rattle.plan_infill.specs.Runs.{IsLineWithin};
ghost use Rattle.plan_infill.specs.Quotient.{IsCeiling};
ghost use Rattle.plan_infill.specs.Columns.{heights_of, IsPositivePart, IsLastPart, IsFirstPart, IsClamped, IsStretchWithin};

use crate::line::Line;
use crate::quotient::{ceiling, floor};
use crate::step::Step;
use crate::stretch::Stretch;
use scad_geom::line::{high, low, rise, run, x_at};
use scad_geom::wide::{minus, plus, times};
use scad_geom::{Edge, Level};
use std::alloc::AllocError;

/// Adds where the turn of an edge round the points of a line changes.
pub(crate) fn push_turn_steps(steps: &mut Vec<Step>, e: &Edge, line: Line) -> Result<(), AllocError>
    requires edge { IsEdgeWithin coordinate_limit e.now }
    requires line { IsLineWithin coordinate_limit line }
    ensures { OnOk result (Adds (AreTurnSteps line e.now) steps.old.items steps.new.items) }
{
    match line {
        Line::Row(y) => push_on_row(steps, e, y),
        Line::Column(x) => push_on_column(steps, e, x),
    }
}

// On a row an edge that passes its height turns round the points to the left of it.
fn push_on_row(steps: &mut Vec<Step>, e: &Edge, y: i32) -> Result<(), AllocError>
    requires edge { IsEdgeWithin coordinate_limit e.now }
    requires row { unsigned_abs y ≤ coordinate_limit }
    ensures { OnOk result (Adds (AreTurnSteps (Row y) e.now) steps.old.items steps.new.items) }
{
    if low(e).y <= y && y < high(e).y {
        steps.push(Step::of_turns(crossing(e, y), -heading(e)))?;
    }
    Ok(())
}

// The least whole x at the height of an edge that isn't to the left of it.
fn crossing(e: &Edge, y: i32) -> i128
    requires edge { IsEdgeWithin coordinate_limit e.now }
    requires from { (low e.now).y ≤ℤ y }
    requires until { y <ℤ (high e.now).y }
    ensures value { IsCeiling (x_at e.now y (pos 1)) (rise e.now) result }
    ensures size { unsigned_abs result ≤ coordinate_limit }
{
    let at = Level { n: y as i128, d: 1 };
    ceiling(x_at(e, &at), rise(e))
}

// -1 for an edge that runs downwards, else 1.
fn heading(e: &Edge) -> i128
    ensures value { result ≡ heading e.now }
    ensures size { unsigned_abs result ≤ 1 }
{
    if e.b.y < e.a.y { -1 } else { 1 }
}

// On a column an edge turns round the points at its height that it has to its left.
fn push_on_column(steps: &mut Vec<Step>, e: &Edge, x: i32) -> Result<(), AllocError>
    requires edge { IsEdgeWithin coordinate_limit e.now }
    requires column { unsigned_abs x ≤ coordinate_limit }
    ensures { OnOk result (Adds (AreTurnSteps (Column x) e.now) steps.old.items steps.new.items) }
{
    let part = right_part(e, x);
    steps.push(Step::of_turns(part.from, heading(e)))?;
    steps.push(Step::of_turns(part.until, -heading(e)))?;
    Ok(())
}

// The heights from the lower end of an edge to its upper end at which it lies to the right of a column.
fn right_part(e: &Edge, x: i32) -> Stretch
    requires edge { IsEdgeWithin coordinate_limit e.now }
    requires column { unsigned_abs x ≤ coordinate_limit }
    ensures { IsPositivePart (heights_of e.now) (run e.now) (left_of e.now x (pos 0) (pos 1)) result }
{
    positive_part(heights(e), run(e), left_of_start(e, x))
}

fn heights(e: &Edge) -> Stretch
    ensures value { result ≡ heights_of e.now }
    ensures order { result.from ≤ℤ result.until }
    ensures within { IsEdgeWithin coordinate_limit e.now → IsStretchWithin coordinate_limit result }
{
    Stretch {
        from: low(e).y as i128,
        until: high(e).y as i128,
    }
}

// How far the line of an edge lies to the right of a column at the height 0, times the edge's rise.
fn left_of_start(e: &Edge, x: i32) -> i128
    requires edge { IsEdgeWithin coordinate_limit e.now }
    requires column { unsigned_abs x ≤ coordinate_limit }
    ensures value { result ≡ left_of e.now x (pos 0) (pos 1) }
    ensures size { unsigned_abs result ≤ 2 ^ 90 }
{
    minus(
        x_at(e, &Level { n: 0, d: 1 }),
        times::<22, 21>(rise(e), x as i128),
    )
}

// The places z of a stretch where slope * z + start is above 0.
fn positive_part(of: Stretch, slope: i128, start: i128) -> Stretch
    requires order { of.from ≤ℤ of.until }
    requires slope { unsigned_abs slope ≤ 2 ^ 22 }
    requires start { unsigned_abs start ≤ 2 ^ 90 }
    ensures { IsPositivePart of slope start result }
{
    if slope > 0 {
        last_part(of, floor(-start, slope) + 1)
    } else if slope < 0 {
        first_part(of, ceiling(start, -slope))
    } else if start > 0 {
        of
    } else {
        first_part(of, of.from)
    }
}

// From a place on.
fn last_part(of: Stretch, from: i128) -> Stretch
    requires order { of.from ≤ℤ of.until }
    ensures { IsLastPart of from result }
{
    Stretch {
        from: clamped(from, of.from, of.until),
        until: of.until,
    }
}

// Before a place.
fn first_part(of: Stretch, until: i128) -> Stretch
    requires order { of.from ≤ℤ of.until }
    ensures { IsFirstPart of until result }
{
    Stretch {
        from: of.from,
        until: clamped(until, of.from, of.until),
    }
}

fn clamped(z: i128, low: i128, high: i128) -> i128
    requires order { low ≤ℤ high }
    ensures { IsClamped z low high result }
{
    if z < low {
        low
    } else if z > high {
        high
    } else {
        z
    }
}
