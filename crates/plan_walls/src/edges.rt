//! The edges of a wall's shape.
ghost use Rattle.std.specs.Prelude.{◌≡◌, ◌+◌, ◌<◌, ◌≤◌, ◌^◌, ◌++◌, length, IfOk, OnOk, All};
ghost use Rattle.scad_geom.specs.Limits.{point_limit};
ghost use Rattle.scad_geom.specs.Within.{IsEdgeWithin};
ghost use Rattle.scad_geom.specs.Loop.{sides, path};
ghost use Rattle.scad_ring.specs.Limits.{distance_limit};
ghost use Rattle.scad_ring.specs.Corners.{corners_of};
ghost use Rattle.plan_walls.specs.Walls.{of_leaf, rings_from, with_rings};

use scad_geom::{Edge, LeafEdge, Pt};
use scad_ring::ring;
use std::alloc::{AllocError, Global};

/// How many edges a wall has: the sides of its outlines, and those of the ring round each.
pub(crate) fn edge_count(around: &[Edge], c: u32) -> u64
    requires edges { All (IsEdgeWithin point_limit) around.now }
    requires positive { 1 ≤ c }
    requires width { c ≤ distance_limit }
    ensures { result ≡ length (with_rings c around.now) }
{
    let mut count = around.len() as u64;
    'around: for edge in around {
        count += corner_count(edge, c);
    }
    count
}

// How many corners the ring round an edge has.
fn corner_count(e: &Edge, c: u32) -> u64
    requires edge { IsEdgeWithin point_limit e.now }
    requires positive { 1 ≤ c }
    requires width { c ≤ distance_limit }
    ensures value { result ≡ length (corners_of c e.now) }
    ensures few { result ≤ 10 }
{
    ring(e, c).as_slice().len() as u64
}

/// The sides of outlines as leaf 0, then those of the ring round each, each ring a leaf, from leaf 1 on.
pub(crate) fn edges(alloc: Global, around: &[Edge], c: u32) -> Result<Vec<LeafEdge>, AllocError>
    requires edges { All (IsEdgeWithin point_limit) around.now }
    requires positive { 1 ≤ c }
    requires width { c ≤ distance_limit }
    requires few { length around.now + 1 < 2 ^ 32 }
    ensures { IfOk result (λ v. v.items ≡ with_rings c around.now) }
{
    let mut edges = Vec::new(alloc);
    push_edges(&mut edges, around)?;
    push_rings(&mut edges, around, c)?;
    Ok(edges)
}

// Adds edges as those of leaf 0.
fn push_edges(edges: &mut Vec<LeafEdge>, around: &[Edge]) -> Result<(), AllocError>
    ensures { OnOk result (edges.new.items ≡ edges.old.items ++ of_leaf 0 around.now) }
{
    'around: for edge in around {
        edges.push(LeafEdge {
            leaf: 0,
            edge: *edge,
        })?;
    }
    Ok(())
}

// Adds the sides of the ring round each edge, each ring a leaf, from leaf 1 on.
fn push_rings(edges: &mut Vec<LeafEdge>, around: &[Edge], c: u32) -> Result<(), AllocError>
    requires edges { All (IsEdgeWithin point_limit) around.now }
    requires positive { 1 ≤ c }
    requires width { c ≤ distance_limit }
    requires few { length around.now + 1 < 2 ^ 32 }
    ensures { OnOk result (edges.new.items ≡ edges.old.items ++ rings_from c 1 around.now) }
{
    'around: for i in 0..around.len() {
        push_sides(edges, i as u32 + 1, ring(&around[i], c).as_slice())?;
    }
    Ok(())
}

// The sides of a closed way as those of a leaf.
fn push_sides(edges: &mut Vec<LeafEdge>, leaf: u32, points: &[Pt]) -> Result<(), AllocError>
    ensures { OnOk result (edges.new.items ≡ edges.old.items ++ of_leaf leaf (sides points.now)) }
{
    match points {
        [] => Ok(()),
        [first, rest @ ..] => push_path(edges, leaf, *first, rest, *first),
    }
}

// The edges from a point through the next points to a last one.
fn push_path(
    edges: &mut Vec<LeafEdge>,
    leaf: u32,
    first: Pt,
    rest: &[Pt],
    last: Pt,
) -> Result<(), AllocError>
    ensures { OnOk result (edges.new.items ≡ edges.old.items ++ of_leaf leaf (path first rest.now last)) }
{
    let mut at = first;
    'points: for next in rest {
        edges.push(LeafEdge {
            leaf,
            edge: Edge { a: at, b: *next },
        })?;
        at = *next;
    }
    edges.push(LeafEdge {
        leaf,
        edge: Edge { a: at, b: last },
    })?;
    Ok(())
}
