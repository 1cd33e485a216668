//! Faces of hulls.
ghost use Rattle.std.specs.Prelude.{◌≡◌, ◌++◌, ◌∷◌, [], IfOk, OnOk, All, not};
ghost use Rattle.scad_geom.specs.Sign.{is_zero};
ghost use Rattle.scad_hull.specs.Space.{IsSmall, IsNarrow, depth_of, normal_of, is_none};
ghost use Rattle.scad_hull.specs.Faces.{in_plane, face_in};

use crate::axis::Facing;
use crate::chain::ring_round;
use crate::cloud::{Cloud, inner_end};
use crate::turning::{Normal, depth, normal_of};
use scad_geom::Pt3;
use std::alloc::{AllocError, Global};

/// A face: its inward normal, and its corners clockwise as seen from outside.
#[derive(Drop)]
pub(crate) struct Face {
    pub normal: Normal,
    pub ring: Vec<Pt3>,
}

/// The face in the plane through `a` with this inward normal.
pub(crate) fn face_in(
    alloc: Global,
    cloud: &Cloud<'_>,
    a: Pt3,
    normal: Normal,
) -> Result<Face, AllocError>
    requires points { All IsSmall cloud.now.points.now }
    requires a { IsSmall a }
    requires normal { IsNarrow normal }
    ensures normal { IfOk result (λ f. f.normal ≡ normal) }
    ensures ring { IfOk result (λ f. f.ring.items ≡ face_in cloud.now.points.now a normal) }
{
    let plane = in_plane(alloc, cloud, a, &normal)?;
    let ring = ring_round(alloc, &Facing { normal }, plane.as_slice())?;
    Ok(Face { normal, ring })
}

/// The points in the plane through `a` with this normal.
pub(crate) fn in_plane(
    alloc: Global,
    cloud: &Cloud<'_>,
    a: Pt3,
    normal: &Normal,
) -> Result<Vec<Pt3>, AllocError>
    requires points { All IsSmall cloud.now.points.now }
    requires a { IsSmall a }
    requires normal { IsNarrow normal.now }
    ensures { IfOk result (λ v. v.items ≡ in_plane cloud.now.points.now a normal.now) }
{
    let mut plane = Vec::new(alloc);
    let mut i = 0;
    'points: while i < cloud.points.len() {
        let end = inner_end(cloud, normal, a, i);
        if end > i {
            i = end;
        } else {
            push_if_in(&mut plane, normal, a, cloud.points[i])?;
            i += 1;
        }
    }
    Ok(plane)
}

fn push_if_in(plane: &mut Vec<Pt3>, normal: &Normal, a: Pt3, p: Pt3) -> Result<(), AllocError>
    requires normal { IsNarrow normal.now }
    requires a { IsSmall a }
    requires p { IsSmall p }
    ensures { OnOk result (plane.new.items ≡ plane.old.items ++ in_plane (p ∷ []) a normal.now) }
{
    if is_in(normal, a, p) {
        plane.push(p)?;
    }
    Ok(())
}

#[tactic(auto, using(scad_geom::proofs::Casts::casts))]
fn is_in(normal: &Normal, a: Pt3, p: Pt3) -> bool
    requires normal { IsNarrow normal.now }
    requires a { IsSmall a }
    requires p { IsSmall p }
    ensures { result ≡ is_zero (depth_of normal.now a p) }
{
    depth(normal, a, p) == 0
}

/// Whether the three points don't lie on one line.
pub(crate) fn is_off(a: Pt3, b: Pt3, p: Pt3) -> bool
    requires a { IsSmall a }
    requires b { IsSmall b }
    requires p { IsSmall p }
    ensures { result ≡ not (is_none (normal_of a b p)) }
{
    let n = normal_of(a, b, p);
    n.x != 0 || n.y != 0 || n.z != 0
}
