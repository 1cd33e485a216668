//! The pairs of edges that share a bucket of heights.
ghost use Rattle.std.specs.Prelude.{◌≡◌, ◌<◌, ◌&&◌, ◌∷◌, length, OnOk, All, int_le};
ghost use Rattle.scad_geom.specs.Line.{low, high};
ghost use Rattle.slice_events.specs.Lines.{edges_in};
ghost use Rattle.slice_events.specs.Boxes.{left_end, right_end, boxes_meet};
ghost use Rattle.slice_events.specs.Stays.{edge_at, IsStayOf, are_at_home, at_home, lies_past, AreInOrder};
ghost use Rattle.slice_events.specs.Yields.{yield_at, yield_with, yield_among, HasRoom, HasYielded};

use crate::comparison::{Found, compare};
use crate::line::Line;
use crate::stay::{Stay, left_end};
use scad_geom::Edge;
use std::alloc::AllocError;

/// Compares the edges of all pairs of stays that share a bucket in which one of the two starts.
pub(crate) fn compare_all(
    found: &mut Found,
    lines: &[Line],
    stays: &[Stay],
) -> Result<(), AllocError>
    requires stays { All (IsStayOf (edges_in lines.now)) stays.now }
    requires order { AreInOrder stays.now }
    requires room { HasRoom found.old (yield_among (edges_in lines.now) stays.now) }
    ensures { OnOk result (HasYielded found.old found.new (yield_among (edges_in lines.now) stays.now)) }
{
    'stays: for i in 0..stays.len() {
        compare_with(found, lines, &stays[i], &stays[i + 1..])?;
    }
    Ok(())
}

// One with all later ones: none of another bucket, or past its right end, meets it.
fn compare_with(
    found: &mut Found,
    lines: &[Line],
    s: &Stay,
    later: &[Stay],
) -> Result<(), AllocError>
    requires stay { IsStayOf (edges_in lines.now) s.now }
    requires stays { All (IsStayOf (edges_in lines.now)) later.now }
    requires order { AreInOrder (s.now ∷ later.now) }
    requires room { HasRoom found.old (yield_with (edges_in lines.now) s.now later.now) }
    ensures { OnOk result (HasYielded found.old found.new (yield_with (edges_in lines.now) s.now later.now)) }
{
    let right = right_end(&line_at(lines, s.line).edge);
    'later: for t in later {
        if lies_past(right, s, t) {
            return Ok(());
        }
        compare_stays(found, lines, s, t)?;
    }
    Ok(())
}

fn lies_past(right: i32, s: &Stay, t: &Stay) -> bool
    ensures { result ≡ lies_past right s.now t.now }
{
    s.bucket != t.bucket || right < t.left
}

fn compare_stays(found: &mut Found, lines: &[Line], s: &Stay, t: &Stay) -> Result<(), AllocError>
    requires s { IsStayOf (edges_in lines.now) s.now }
    requires t { IsStayOf (edges_in lines.now) t.now }
    requires room { HasRoom found.old (yield_at (edges_in lines.now) s.now t.now) }
    ensures { OnOk result (HasYielded found.old found.new (yield_at (edges_in lines.now) s.now t.now)) }
{
    if is_at_home(lines, s, t) {
        return compare(found, line_at(lines, s.line), line_at(lines, t.line));
    }
    Ok(())
}

fn is_at_home(lines: &[Line], s: &Stay, t: &Stay) -> bool
    requires s { IsStayOf (edges_in lines.now) s.now }
    requires t { IsStayOf (edges_in lines.now) t.now }
    ensures { result ≡ at_home boxes_meet (edges_in lines.now) s.now t.now }
{
    are_at_home(s, t) && boxes_meet(line_at(lines, s.line), line_at(lines, t.line))
}

fn are_at_home(s: &Stay, t: &Stay) -> bool
    ensures { result ≡ are_at_home s.now t.now }
{
    s.bucket == t.bucket && (s.starts || t.starts)
}

#[tactic(auto, unfolding(crate::specs::Boxes::boxes_meet))]
fn boxes_meet(e: &Line, f: &Line) -> bool
    ensures { result ≡ boxes_meet e.now.edge f.now.edge }
{
    are_abreast(&e.edge, &f.edge) && are_level(e, f)
}

fn are_abreast(e: &Edge, f: &Edge) -> bool
    ensures { result ≡ (int_le (left_end e.now) (right_end f.now) && int_le (left_end f.now) (right_end e.now)) }
{
    left_end(e) <= right_end(f) && left_end(f) <= right_end(e)
}

fn are_level(e: &Line, f: &Line) -> bool
    ensures { result ≡ (int_le (low e.now.edge).y (high f.now.edge).y && int_le (low f.now.edge).y (high e.now.edge).y) }
{
    e.low_y() <= f.high_y() && f.low_y() <= e.high_y()
}

#[tactic(auto, unfolding(crate::specs::Boxes::right_end))]
fn right_end(e: &Edge) -> i32
    ensures { result ≡ right_end e.now }
{
    if e.b.x < e.a.x { e.a.x } else { e.b.x }
}

fn line_at(lines: &[Line], i: u32) -> &Line
    requires { i < length (edges_in lines.now) }
    ensures { result.now.edge ≡ edge_at (edges_in lines.now) i }
{
    &lines[i as usize]
}
