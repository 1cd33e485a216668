//! The lower ends of edges, from low to high.
ghost use Rattle.std.specs.Prelude.{◌≡◌, ◌≤◌, ◌<◌, ◌^◌, int_lt, length, drop, ◌++◌, IfOk, OnOk, All};
ghost use Rattle.std.specs.List.Sorted.{IsPermutation};
ghost use Rattle.std.specs.Ordering.{is_lt};
ghost use Rattle.scad_geom.specs.Limits.{coordinate_limit};
ghost use Rattle.scad_geom.specs.Line.{low};
ghost use Rattle.scad_geom.specs.Within.{IsEdgeWithin};
ghost use Rattle.scad_geom.specs.Level.{IsLevelWithin};
ghost use Rattle.slice_bundles.specs.Bundles.{edge_at};
ghost use Rattle.slice_bundles.specs.Starts.{AreStarts, AreRising, numbers_of, all_numbers, begun_at, pending_at, is_begun};

use scad_geom::line::low;
use scad_geom::wide::times;
use scad_geom::{LeafEdge, Level};
use slice_bundles::Start;
use std::alloc::{AllocError, Global};
use std::cmp::Ordering;

/// The starts of all edges, from low to high.
pub(crate) fn starts(alloc: Global, edges: &[LeafEdge]) -> Result<Vec<Start>, AllocError>
    requires within { All (λ e. IsEdgeWithin coordinate_limit e.edge) edges.now }
    requires few { length edges.now < 2 ^ 32 }
    ensures all { IfOk result (λ v. IsPermutation (all_numbers edges.now) (numbers_of v.items)) }
    ensures starts { IfOk result (λ v. AreStarts edges.now v.items) }
    ensures rising { IfOk result (λ v. AreRising v.items) }
{
    let mut out = unsorted(alloc, edges)?;
    sort(&mut out)?;
    Ok(out)
}

fn unsorted(alloc: Global, edges: &[LeafEdge]) -> Result<Vec<Start>, AllocError>
    requires within { All (λ e. IsEdgeWithin coordinate_limit e.edge) edges.now }
    requires few { length edges.now < 2 ^ 32 }
    ensures all { IfOk result (λ v. numbers_of v.items ≡ all_numbers edges.now) }
    ensures starts { IfOk result (λ v. AreStarts edges.now v.items) }
{
    let mut out = Vec::new(alloc);
    'edges: for i in 0..edges.len() {
        out.push(start_of(edges, i))?;
    }
    Ok(out)
}

fn start_of(edges: &[LeafEdge], i: usize) -> Start
    requires within { All (λ e. IsEdgeWithin coordinate_limit e.edge) edges.now }
    requires few { length edges.now < 2 ^ 32 }
    requires there { i < length edges.now }
    ensures number { result.number ≡ i }
    ensures y { result.y ≡ (low (edge_at edges.now i)).y }
{
    Start {
        y: low(&edges[i].edge).y,
        number: i as u32,
    }
}

fn sort(starts: &mut Vec<Start>) -> Result<(), AllocError>
    ensures permutation { IsPermutation starts.old.items starts.new.items }
    ensures rising { OnOk result (AreRising starts.new.items) }
{
    starts.sort_by(compare)
}

fn compare(s: &Start, t: &Start) -> Ordering
    ensures { is_lt result ≡ int_lt s.now.y t.now.y }
{
    s.y.cmp(&t.y)
}

/// Adds the numbers of the edges from a place on that begin at or below a height, and returns the place of the first
/// that doesn't.
pub(crate) fn begin(
    live: &mut Vec<u32>,
    starts: &[Start],
    from: usize,
    at: &Level,
) -> Result<usize, AllocError>
    requires from { from ≤ length starts.now }
    requires at { IsLevelWithin coordinate_limit at.now }
    ensures within { IfOk result (λ n. n ≤ length starts.now) }
    ensures begun { IfOk result
        (λ n. live.new.items ≡ live.old.items ++ numbers_of (begun_at at.now (drop from starts.now))) }
    ensures pending { IfOk result (λ n. drop n starts.now ≡ pending_at at.now (drop from starts.now)) }
{
    'starts: for i in from..starts.len() {
        if !is_begun(&starts[i], at) {
            return Ok(i);
        }
        live.push(starts[i].number)?;
    }
    Ok(starts.len())
}

fn is_begun(s: &Start, at: &Level) -> bool
    requires { IsLevelWithin coordinate_limit at.now }
    ensures { result ≡ is_begun at.now s.now }
{
    times::<21, 44>(s.y as i128, at.d) <= at.n
}
