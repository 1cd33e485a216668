//! Opposite edges cancel.
ghost use Rattle.std.specs.Prelude.{◌≡◌, ◌↔◌, ◌-◌, length, IsTrue, IfOk};
ghost use Rattle.scad_geom.specs.Segment.{segments};
ghost use Rattle.scad_geom.specs.Balance.{IsBalanced};
ghost use Rattle.winding_laws.specs.Edges.{turned};
ghost use Rattle.slice_pieces.specs.Cancelling.{AreCancelled, IsOppositeAt};
ghost use Rattle.slice_pieces.specs.Spans.{IsAscending};

use crate::spans::sort;
use scad_geom::Edge;
use std::alloc::{AllocError, Global};

/// What is left of edges where opposite ones cancel, one for one: pairs of opposite edges alone are taken out, and no two of
/// the edges left are opposite; in any order. Where as many edges start at each point as end there, so do those left.
pub fn cancel(alloc: Global, edges: &[Edge]) -> Result<Vec<Edge>, AllocError>
    ensures left { IfOk result (λ v. AreCancelled edges.now v.items) }
    ensures balanced { IfOk result (λ v. IsBalanced (segments edges.now) → IsBalanced (segments v.items)) }
{
    let mut sorted = Vec::from_slice(alloc, edges)?;
    sort(&mut sorted);
    cancel_sorted(alloc, &sorted)
}

// Of edges that run between the same two points, which stand side by side, those left all run one way, so the last one tells.
fn cancel_sorted(alloc: Global, edges: &[Edge]) -> Result<Vec<Edge>, AllocError>
    requires { IsAscending edges.now }
    ensures { IfOk result (λ v. AreCancelled edges.now v.items) }
{
    let mut left = Vec::new(alloc);
    'edges: for edge in edges {
        if ends_in_opposite(&left, edge) {
            left.pop();
        } else {
            left.push(*edge)?;
        }
    }
    Ok(left)
}

// Whether the last of some edges runs the other way.
fn ends_in_opposite(edges: &[Edge], edge: &Edge) -> bool
    ensures { IsTrue result ↔ IsOppositeAt edge.now edges.now (length edges.now - 1) }
{
    let count = edges.len();
    count > 0 && is_opposite(edge, &edges[count - 1])
}

fn is_opposite(e: &Edge, f: &Edge) -> bool
    ensures { IsTrue result ↔ (f.now ≡ turned e.now) }
{
    *f == turned(e)
}

fn turned(e: &Edge) -> Edge
    ensures { result ≡ turned e.now }
{
    Edge { a: e.b, b: e.a }
}
