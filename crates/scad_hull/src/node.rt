//! Points of space in the order of their heights.
ghost use Rattle.std.specs.Prelude.{◌≡◌, IfOk, map};
ghost use Rattle.std.specs.List.Sorted.{IsStrictlySortedBy};
ghost use Rattle.scad_hull.specs.Distinct.{distinct};
ghost use Rattle.scad_hull.specs.Space.{space_cmp};
ghost use Rattle.scad_hull.specs.Node.{node_of, point_of};

use crate::distinct::distinct;
use scad_geom::Pt3;
use std::alloc::{AllocError, Global};

/// A point with its height first, by which points are ordered.
#[derive(Clone, Copy, PartialEq, Eq, PartialOrd, Ord)]
pub(crate) struct Node {
    pub z: i32,
    pub y: i32,
    pub x: i32,
}

/// The points by z, then y, then x, each once.
pub(crate) fn by_height(alloc: Global, points: &[Pt3]) -> Result<Vec<Pt3>, AllocError>
    ensures value { IfOk result (λ v. v.items ≡ distinct space_cmp points.now) }
    ensures ordered { IfOk result (λ v. IsStrictlySortedBy space_cmp v.items) }
{
    let nodes = nodes_of(alloc, points)?;
    let sorted = distinct(alloc, nodes.as_slice())?;
    let all = points_of(alloc, sorted.as_slice())?;
    Ok(all)
}

/// The points with their heights first.
pub(crate) fn nodes_of(alloc: Global, points: &[Pt3]) -> Result<Vec<Node>, AllocError>
    ensures { IfOk result (λ v. v.items ≡ map node_of points.now) }
{
    points
        .iter()
        .map(|p| Node {
            z: p.z,
            y: p.y,
            x: p.x,
        })
        .collect(alloc)
}

/// The same points.
pub(crate) fn points_of(alloc: Global, nodes: &[Node]) -> Result<Vec<Pt3>, AllocError>
    ensures { IfOk result (λ v. v.items ≡ map point_of nodes.now) }
{
    nodes
        .iter()
        .map(|n| Pt3 {
            x: n.x,
            y: n.y,
            z: n.z,
        })
        .collect(alloc)
}
