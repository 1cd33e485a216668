//! What of an edge list matters on a level.
ghost use Rattle.std.specs.Prelude.{◌≡◌, ◌<◌, length, filter, IfOk, All};
ghost use Rattle.std.specs.List.Sorted.{IsPermutation};
ghost use Rattle.scad_geom.specs.Limits.{coordinate_limit};
ghost use Rattle.scad_geom.specs.Within.{IsEdgeWithin};
ghost use Rattle.scad_geom.specs.Level.{IsLevelWithin};
ghost use Rattle.slice_bundles.specs.Bundles.{edge_at};
ghost use Rattle.slice_bundles.specs.Touching.{touching};
ghost use Rattle.slice_border.specs.Pieces.{is_flat_at};
ghost use Rattle.slice_bool.specs.Near.{picked, AreEdgesNear};

use crate::stops::is_flat_at;
use scad_geom::{LeafEdge, Level};
use std::alloc::{AllocError, Global};

/// The numbers of the flat edges that lie on a level, and where there are such, the edges that meet it.
#[derive(Drop)]
pub(crate) struct Near {
    pub(crate) touching: Vec<LeafEdge>,
    pub(crate) flats: Vec<u32>,
}

/// What is near a level, from the numbers of the edges that meet it.
pub(crate) fn edges_near(
    alloc: Global,
    edges: &[LeafEdge],
    numbers: &[u32],
    at: &Level,
) -> Result<Near, AllocError>
    requires within { All (λ e. IsEdgeWithin coordinate_limit e.edge) edges.now }
    requires at { IsLevelWithin coordinate_limit at.now }
    requires numbers { IsPermutation (touching 0 edges.now at.now) numbers.now }
    ensures { IfOk result (AreEdgesNear edges.now at.now) }
{
    let flats = flats(alloc, edges, numbers, at)?;
    if flats.is_empty() {
        return Ok(Near {
            touching: Vec::new(alloc),
            flats,
        });
    }
    let mut ascending = Vec::from_slice(alloc, numbers)?;
    ascending.sort_unstable();
    near_ascending(alloc, edges, &ascending, at)
}

// The same, from the numbers as they ascend.
fn near_ascending(
    alloc: Global,
    edges: &[LeafEdge],
    numbers: &[u32],
    at: &Level,
) -> Result<Near, AllocError>
    requires within { All (λ e. IsEdgeWithin coordinate_limit e.edge) edges.now }
    requires at { IsLevelWithin coordinate_limit at.now }
    requires numbers { numbers.now ≡ touching 0 edges.now at.now }
    ensures { IfOk result (AreEdgesNear edges.now at.now) }
{
    let flats = flats(alloc, edges, numbers, at)?;
    let touching = edges_of(alloc, edges, numbers)?;
    Ok(Near { touching, flats })
}

// The edges of these numbers.
fn edges_of(alloc: Global, edges: &[LeafEdge], numbers: &[u32]) -> Result<Vec<LeafEdge>, AllocError>
    requires there { All (λ k. k < length edges.now) numbers.now }
    ensures { IfOk result (λ v. v.items ≡ picked edges.now numbers.now) }
{
    let mut out = Vec::new(alloc);
    'numbers: for k in numbers {
        out.push(edges[*k as usize])?;
    }
    Ok(out)
}

// Of these numbers those of flat edges on a level.
fn flats(
    alloc: Global,
    edges: &[LeafEdge],
    numbers: &[u32],
    at: &Level,
) -> Result<Vec<u32>, AllocError>
    requires within { All (λ e. IsEdgeWithin coordinate_limit e.edge) edges.now }
    requires at { IsLevelWithin coordinate_limit at.now }
    requires there { All (λ k. k < length edges.now) numbers.now }
    ensures { IfOk result (λ v. v.items ≡ filter (λ k. is_flat_at (edge_at edges.now k) at.now) numbers.now) }
{
    let mut out = Vec::new(alloc);
    'numbers: for k in numbers {
        if is_flat_at(&edges[*k as usize].edge, at) {
            out.push(*k)?;
        }
    }
    Ok(out)
}
