//! Hulls in space.
ghost use Rattle.std.specs.Prelude.{◌≡◌, All, IfOk, IsTrue, Some, None, if◌then◌else◌, map};
ghost use Rattle.std.specs.List.{flat_map, list_all};
ghost use Rattle.std.specs.List.Sorted.{IsStrictlySortedBy};
ghost use Rattle.scad_base.specs.Memory.{UnlessMemory};
ghost use Rattle.scad_geom.specs.PointRange.{is_in_range};
ghost use Rattle.scad_solid.specs.Solid.{fan, fans};
ghost use Rattle.scad_hull.specs.Distinct.{distinct};
ghost use Rattle.scad_hull.specs.Flat.{is_memory};
ghost use Rattle.scad_hull.specs.Node.{point_of};
ghost use Rattle.scad_hull.specs.Space.{space_cmp, IsSmall, HasRoom};
ghost use Rattle.scad_hull.specs.Faces.{are_flat, face_cmp, faces_of, hull_of};
ghost use Rattle.scad_hull.specs.Wrapping.{rings_of};

use crate::block::blocks_of;
use crate::cloud::Cloud;
use crate::faces::Face;
use crate::fault::HullFault;
use crate::first::first_face;
use crate::flat::POINT_COUNT_LIMIT;
use crate::node::{Node, by_height, nodes_of, points_of};
use crate::wrapping::wrap;
use scad_geom::Pt3;
use scad_solid::{Triangle, Triangles, push_fan};
use std::alloc::{AllocError, Global};
use std::collections::BTreeSet;

/// The hull of points: its faces, each the ring of all points in its plane, clockwise as seen from outside, as fans in the order of their
/// corners; None exactly where the points lie in one plane. More than 20,000 distinct points are refused, with their number.
pub fn hull(alloc: Global, points: &[Pt3]) -> Result<Option<Triangles>, HullFault>
    requires { IsTrue (list_all is_in_range points.now) }
    ensures { UnlessMemory is_memory result (result ≡ hull_of points.now) }
{
    let Ok(points) = by_height(alloc, points) else {
        return Err(HullFault::Memory);
    };
    if points.len() > POINT_COUNT_LIMIT {
        return Err(HullFault::Points(points.len() as u64));
    }
    match solid(alloc, points.as_slice()) {
        Ok(solid) => Ok(solid),
        Err(_) => Err(HullFault::Memory),
    }
}

fn solid(alloc: Global, points: &[Pt3]) -> Result<Option<Triangles>, AllocError>
    requires points { All IsSmall points.now }
    requires room { All HasRoom points.now }
    requires range { IsTrue (list_all is_in_range points.now) }
    requires sorted { IsStrictlySortedBy space_cmp points.now }
    ensures { IfOk result (λ o. o ≡ (if are_flat points.now then None else Some (fans (faces_of points.now)))) }
{
    let blocks = blocks_of(alloc, points)?;
    let cloud = Cloud {
        points,
        blocks: blocks.as_slice(),
    };
    let Some(first) = first_face(alloc, &cloud)? else {
        return Ok(None);
    };
    let faces = wrap(alloc, &cloud, first)?;
    let rings = in_order(alloc, faces.as_slice())?;
    let triangles = fans(alloc, rings.as_slice())?;
    Ok(Some(Triangles::from_closed(triangles)))
}

// The faces by their corners.
fn in_order(alloc: Global, faces: &[Face]) -> Result<Vec<Vec<Node>>, AllocError>
    ensures { IfOk result (λ v. map (λ r. map point_of r.items) v.items ≡ distinct face_cmp (rings_of faces.now)) }
{
    let mut rings = BTreeSet::new(alloc);
    'faces: for face in faces {
        let ring = nodes_of(alloc, face.ring.as_slice())?;
        if rings.insert(ring).is_err() {
            return Err(AllocError);
        }
    }
    rings.into_iter().collect(alloc)
}

fn fans(alloc: Global, rings: &[Vec<Node>]) -> Result<Vec<Triangle>, AllocError>
    ensures { IfOk result (λ v. v.items ≡ flat_map (λ r. fan (map point_of r.items)) rings.now) }
{
    let mut triangles = Vec::new(alloc);
    'rings: for ring in rings {
        let corners = points_of(alloc, ring.as_slice())?;
        push_fan(&mut triangles, corners.as_slice())?;
    }
    Ok(triangles)
}
