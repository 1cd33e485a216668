//! The lower ends of edges, from low to high.
ghost use Rattle.std.specs.Prelude.{◌≡◌, ◌≤◌, ◌<◌, ◌^◌, int_lt, length, drop, ◌++◌, IfOk, OnOk, All};
ghost use Rattle.std.specs.List.Sorted.{IsPermutation};
ghost use Rattle.std.specs.Ordering.{is_lt};
ghost use Rattle.scad_geom.specs.Limits.{coordinate_limit};
ghost use Rattle.scad_geom.specs.Line.{low};
ghost use Rattle.scad_geom.specs.Within.{IsEdgeWithin};
ghost use Rattle.scad_geom.specs.Level.{IsLevelWithin};
ghost use Rattle.slice_bundles.specs.Bundles.{edge_at};
ghost use Rattle.slice_bundles.specs.Starts.{AreStarts, AreRising, numbers_of, all_numbers, begun_at, pending_at, is_begun};
ghost use Rattle.slice_sweep.specs.LowerEnds.{start_of, starts_of};

use crate::lower_end::LowerEnd;
use scad_geom::line::low;
use scad_geom::wide::times;
use scad_geom::{LeafEdge, Level};
use std::alloc::{AllocError, Global};
use std::cmp::Ordering;

/// The lower ends of all edges, from low to high.
pub(crate) fn lower_ends(alloc: Global, edges: &[LeafEdge]) -> Result<Vec<LowerEnd>, AllocError>
    requires within { All (λ e. IsEdgeWithin coordinate_limit e.edge) edges.now }
    requires few { length edges.now < 2 ^ 32 }
    ensures all { IfOk result (λ v. IsPermutation (all_numbers edges.now) (numbers_of (starts_of v.items))) }
    ensures starts { IfOk result (λ v. AreStarts edges.now (starts_of v.items)) }
    ensures rising { IfOk result (λ v. AreRising (starts_of v.items)) }
{
    let mut out = unsorted(alloc, edges)?;
    sort(&mut out)?;
    Ok(out)
}

fn unsorted(alloc: Global, edges: &[LeafEdge]) -> Result<Vec<LowerEnd>, AllocError>
    requires within { All (λ e. IsEdgeWithin coordinate_limit e.edge) edges.now }
    requires few { length edges.now < 2 ^ 32 }
    ensures all { IfOk result (λ v. numbers_of (starts_of v.items) ≡ all_numbers edges.now) }
    ensures starts { IfOk result (λ v. AreStarts edges.now (starts_of v.items)) }
{
    let mut out = Vec::new(alloc);
    'edges: for i in 0..edges.len() {
        out.push(lower_end(edges, i))?;
    }
    Ok(out)
}

fn lower_end(edges: &[LeafEdge], i: usize) -> LowerEnd
    requires within { All (λ e. IsEdgeWithin coordinate_limit e.edge) edges.now }
    requires few { length edges.now < 2 ^ 32 }
    requires there { i < length edges.now }
    ensures number { result.number ≡ i }
    ensures y { result.y ≡ (low (edge_at edges.now i)).y }
{
    LowerEnd {
        y: low(&edges[i].edge).y,
        number: i as u32,
    }
}

fn sort(ends: &mut Vec<LowerEnd>) -> Result<(), AllocError>
    ensures permutation { IsPermutation ends.old.items ends.new.items }
    ensures rising { OnOk result (AreRising (starts_of ends.new.items)) }
{
    ends.sort_by(compare)
}

fn compare(s: &LowerEnd, t: &LowerEnd) -> Ordering
    ensures { is_lt result ≡ int_lt s.now.y t.now.y }
{
    s.y.cmp(&t.y)
}

/// Adds the numbers of the edges from a place on that start at or below a height, and returns the place of the first
/// that doesn't.
pub(crate) fn begin(
    numbers: &mut Vec<u32>,
    ends: &[LowerEnd],
    from: usize,
    at: &Level,
) -> Result<usize, AllocError>
    requires from { from ≤ length ends.now }
    requires at { IsLevelWithin coordinate_limit at.now }
    ensures within { IfOk result (λ n. n ≤ length ends.now) }
    ensures begun { IfOk result (λ n. numbers.new.items
        ≡ numbers.old.items ++ numbers_of (begun_at at.now (starts_of (drop from ends.now)))) }
    ensures pending { IfOk result
        (λ n. starts_of (drop n ends.now) ≡ pending_at at.now (starts_of (drop from ends.now))) }
{
    'ends: for i in from..ends.len() {
        if !is_begun(&ends[i], at) {
            return Ok(i);
        }
        numbers.push(ends[i].number)?;
    }
    Ok(ends.len())
}

fn is_begun(s: &LowerEnd, at: &Level) -> bool
    requires { IsLevelWithin coordinate_limit at.now }
    ensures { result ≡ is_begun at.now (start_of s.now) }
{
    times::<21, 44>(s.y as i128, at.d) <= at.n
}
