//! The first face of a hull.
ghost use Rattle.std.specs.Prelude.{◌≡◌, ◌<◌, All, Contains, IfOk, IfSome, IfNone, length, slice_index_or, true, false, pos, int_lt};
ghost use Rattle.std.specs.List.{list_all, list_any};
ghost use Rattle.std.specs.List.Sorted.{IsStrictlySortedBy};
ghost use Rattle.scad_hull.specs.Space.{space_cmp, beside, IsSmall, HasRoom, IsNarrow, IsTurned, depth_of, normal_of, is_none};
ghost use Rattle.scad_hull.specs.Faces.{are_flat, IsEdge, IsFaceOf, IsFacePlane, IsSpread};

use crate::cloud::Cloud;
use crate::faces::{Face, face_in, in_plane, is_off};
use crate::turning::{Normal, is_inside, outermost};
use scad_geom::Pt3;
use std::alloc::{AllocError, Global};

/// A face of points in order, or None where all lie in one plane.
pub(crate) fn first_face(alloc: Global, cloud: &Cloud<'_>) -> Result<Option<Face>, AllocError>
    requires points { All IsSmall cloud.now.points.now }
    requires room { All HasRoom cloud.now.points.now }
    requires sorted { IsStrictlySortedBy space_cmp cloud.now.points.now }
    ensures some { IfOk result (λ o. IfSome o (IsFaceOf cloud.now.points.now)) }
    ensures spread { IfOk result (λ o. IfSome o (λ f. IsSpread cloud.now.points.now)) }
    ensures none { IfOk result (λ o. IfNone o (are_flat cloud.now.points.now ≡ true)) }
{
    if cloud.points.is_empty() {
        return Ok(None);
    }
    let a = cloud.points[0];
    let Some(normal) = first_normal(alloc, cloud, a)? else {
        return Ok(None);
    };
    if !has_inner(cloud.points, a, &normal) {
        return Ok(None);
    }
    let face = face_in(alloc, cloud, a, normal)?;
    Ok(Some(face))
}

// The normal of a face's plane through the least point, or None where all points lie in one plane.
fn first_normal(alloc: Global, cloud: &Cloud<'_>, a: Pt3) -> Result<Option<Normal>, AllocError>
    requires points { All IsSmall cloud.now.points.now }
    requires small { IsSmall a }
    requires room { HasRoom a }
    requires sorted { IsStrictlySortedBy space_cmp cloud.now.points.now }
    requires has { Contains cloud.now.points.now a }
    requires first { a ≡ slice_index_or cloud.now.points.now 0 a }
    ensures narrow { IfOk result (λ o. IfSome o IsNarrow) }
    ensures plane { IfOk result (λ o. IfSome o (IsFacePlane cloud.now.points.now a)) }
    ensures none { IfOk result (λ o. IfNone o (are_flat cloud.now.points.now ≡ true)) }
{
    let Some(normal) = level_normal(cloud, a) else {
        return Ok(None);
    };
    turned_on(alloc, cloud, a, normal)
}

// The plane is turned about the x direction through the least point.
fn level_normal(cloud: &Cloud<'_>, a: Pt3) -> Option<Normal>
    requires points { All IsSmall cloud.now.points.now }
    requires small { IsSmall a }
    requires room { HasRoom a }
    requires sorted { IsStrictlySortedBy space_cmp cloud.now.points.now }
    requires has { Contains cloud.now.points.now a }
    requires first { a ≡ slice_index_or cloud.now.points.now 0 a }
    ensures narrow { IfSome result IsNarrow }
    ensures turned { IfSome result (λ n. IsTurned a (beside a) cloud.now.points.now n (length cloud.now.points.now)) }
    ensures none { IfNone result (are_flat cloud.now.points.now ≡ true) }
{
    let b = beside(a);
    let Some(c) = off(cloud.points, a, b) else {
        return None;
    };
    let normal = outermost(cloud, a, b, c);
    Some(normal)
}

// The point beside it in the x direction.
fn beside(a: Pt3) -> Pt3
    requires small { IsSmall a }
    requires room { HasRoom a }
    ensures value { result ≡ beside a }
    ensures small { IsSmall result }
{
    Pt3 {
        x: a.x - 1,
        y: a.y,
        z: a.z,
    }
}

// Where what it meets lies on one line, the plane is turned about that line too.
fn turned_on(
    alloc: Global,
    cloud: &Cloud<'_>,
    a: Pt3,
    normal: Normal,
) -> Result<Option<Normal>, AllocError>
    requires points { All IsSmall cloud.now.points.now }
    requires small { IsSmall a }
    requires room { HasRoom a }
    requires has { Contains cloud.now.points.now a }
    requires narrow { IsNarrow normal }
    requires turned { IsTurned a (beside a) cloud.now.points.now normal (length cloud.now.points.now) }
    ensures narrow { IfOk result (λ o. IfSome o IsNarrow) }
    ensures plane { IfOk result (λ o. IfSome o (IsFacePlane cloud.now.points.now a)) }
    ensures none { IfOk result (λ o. IfNone o (are_flat cloud.now.points.now ≡ true)) }
{
    let met = in_plane(alloc, cloud, a, &normal)?;
    let b = beside(a);
    let Some(d) = off(met.as_slice(), a, b) else {
        return Ok(None);
    };
    match off(met.as_slice(), a, d) {
        Some(_) => Ok(Some(normal)),
        None => Ok(turned_again(cloud, a, d)),
    }
}

// The plane is turned about the line of what it meets.
fn turned_again(cloud: &Cloud<'_>, a: Pt3, d: Pt3) -> Option<Normal>
    requires points { All IsSmall cloud.now.points.now }
    requires has_a { Contains cloud.now.points.now a }
    requires has_d { Contains cloud.now.points.now d }
    requires edge { IsEdge cloud.now.points.now a d }
    ensures narrow { IfSome result IsNarrow }
    ensures plane { IfSome result (IsFacePlane cloud.now.points.now a) }
    ensures none { IfNone result (are_flat cloud.now.points.now ≡ true) }
{
    let Some(e) = off(cloud.points, a, d) else {
        return None;
    };
    let further = outermost(cloud, a, d, e);
    Some(further)
}

// The first point that doesn't lie on the line through two.
fn off(points: &[Pt3], a: Pt3, b: Pt3) -> Option<Pt3>
    requires points { All IsSmall points.now }
    requires a { IsSmall a }
    requires b { IsSmall b }
    ensures some { IfSome result (λ p. Contains points.now p) }
    ensures off { IfSome result (λ p. is_none (normal_of a b p) ≡ false) }
    ensures none { IfNone result (list_all (λ p. is_none (normal_of a b p)) points.now ≡ true) }
{
    'points: for p in points {
        if is_off(a, b, *p) {
            return Some(*p);
        }
    }
    None
}

// Whether a point lies on the inner side of the plane.
fn has_inner(points: &[Pt3], a: Pt3, normal: &Normal) -> bool
    requires points { All IsSmall points.now }
    requires a { IsSmall a }
    requires normal { IsNarrow normal.now }
    ensures { result ≡ list_any (λ p. int_lt (pos 0) (depth_of normal.now a p)) points.now }
{
    'points: for p in points {
        if is_inside(normal, a, *p) {
            return true;
        }
    }
    false
}
