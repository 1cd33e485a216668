//! The walls at a distance.
ghost use Rattle.std.specs.Prelude.{◌≡◌, ◌+◌, ◌<◌, ◌≤◌, ◌^◌, length, IfOk, IfErr, All};
ghost use Rattle.scad_geom.specs.Limits.{point_limit};
ghost use Rattle.scad_geom.specs.Within.{IsWithin, IsEdgeWithin};
ghost use Rattle.scad_geom.specs.Segment.{segments};
ghost use Rattle.scad_geom.specs.Balance.{IsBalanced};
ghost use Rattle.scad_ring.specs.Limits.{distance_limit};
ghost use Rattle.slice_events.specs.Limits.{crossing_limit};
ghost use Rattle.slice_events.specs.Levels.{crossings};
ghost use Rattle.plan_walls.specs.Walls.{with_rings, wall_edges, IsFirstWithout, AreWallsAlong, AreWalls};
ghost use Rattle.plan_walls.specs.Clearance.{StayApart, KeepClear};
ghost use Rattle.plan_walls.specs.Refusal.{wall_edge_limit, IsRefusal};

use crate::edges::{edge_count, edges};
use crate::shape::first_without;
use plan_sides::sides;
use scad_geom::{Edge, LeafEdge, Loop, Shape};
use slice_border::BoolFault;
use slice_outlines::outlines;
use std::alloc::{AllocError, Global};

/// The greatest number of edges, those of the outlines and of the rings round them.
const WALL_EDGE_LIMIT: u32 = 220_000;

/// The loops at the distance `c` micrometres from outlines, with the inside on their left: the outlines of what lies
/// inside the given ones and outside of the ring round each of their sides, all that differs from a point of it by a
/// point of the octagon of `c`. Each point of the loops keeps the clearance from every side of the outlines handed in,
/// `c - 1` along each axis or `reach(c) - 2` along the sum of both, and from `c` of 2 on they wind round it.
///
/// They are refused exactly where the sides and the rings have more than 220,000 edges, and then where more than
/// 2,000,000 pairs of them cross.
pub fn walls(alloc: Global, outlines: &[Loop], c: u32) -> Result<Vec<Loop>, BoolFault>
    requires within { All (λ l. All (IsWithin point_limit) l) outlines.now }
    requires positive { 1 ≤ c }
    requires width { c ≤ distance_limit }
    ensures walls { IfOk result (λ v. AreWalls c outlines.now v.items) }
    ensures apart { IfOk result (λ v. StayApart outlines.now c v.items) }
    ensures clear { 2 ≤ c → IfOk result (λ v. KeepClear outlines.now c v.items) }
    ensures few { IfOk result (λ v. length (wall_edges c outlines.now) ≤ wall_edge_limit) }
    ensures accepted { IfOk result (λ v. crossings (wall_edges c outlines.now) ≤ crossing_limit) }
    ensures refused { IfErr result
        (IsRefusal (length (wall_edges c outlines.now)) wall_edge_limit (crossings (wall_edges c outlines.now))) }
{
    match sides(alloc, outlines) {
        Ok(around) => walls_along(alloc, &around, c),
        Err(_) => Err(BoolFault::Memory),
    }
}

// The walls along edges.
fn walls_along(alloc: Global, around: &[Edge], c: u32) -> Result<Vec<Loop>, BoolFault>
    requires within { All (IsEdgeWithin point_limit) around.now }
    requires balanced { IsBalanced (segments around.now) }
    requires positive { 1 ≤ c }
    requires width { c ≤ distance_limit }
    ensures walls { IfOk result (λ v. AreWallsAlong c around.now v.items) }
    ensures few { IfOk result (λ v. length (with_rings c around.now) ≤ wall_edge_limit) }
    ensures accepted { IfOk result (λ v. crossings (with_rings c around.now) ≤ crossing_limit) }
    ensures refused { IfErr result
        (IsRefusal (length (with_rings c around.now)) wall_edge_limit (crossings (with_rings c around.now))) }
{
    let count = edge_count(around, c);
    if count > WALL_EDGE_LIMIT as u64 {
        return Err(BoolFault::Edges(count));
    }
    match edges_and_shape(alloc, around, c) {
        Ok((edges, shape)) => outlines(alloc, &edges, &shape, WALL_EDGE_LIMIT),
        Err(_) => Err(BoolFault::Memory),
    }
}

fn edges_and_shape(
    alloc: Global,
    around: &[Edge],
    c: u32,
) -> Result<(Vec<LeafEdge>, Shape), AllocError>
    requires within { All (IsEdgeWithin point_limit) around.now }
    requires positive { 1 ≤ c }
    requires width { c ≤ distance_limit }
    requires few { length around.now + 1 < 2 ^ 32 }
    ensures edges { IfOk result (λ r. r.0.items ≡ with_rings c around.now) }
    ensures shape { IfOk result (λ r. IsFirstWithout (length around.now) r.1) }
{
    let edges = edges(alloc, around, c)?;
    let shape = first_without(alloc, around.len() as u32)?;
    Ok((edges, shape))
}
