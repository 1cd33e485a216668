//! Turning a plane about the line through two points.

ghost use Rattle.std.specs.Prelude.{◌≡◌, ◌^◌, ◌≤◌, ◌+ℤ◌, ◌-ℤ◌, ◌*ℤ◌, pos, int_lt, unsigned_abs, All, length, if◌then◌else◌};
ghost use Rattle.scad_hull.specs.Space.{normal_of, depth_of, IsSmall, IsNarrow, IsTurned};

use crate::block::block_end;
use crate::cloud::{Cloud, inner_end};
use scad_geom::Pt3;
use scad_geom::wide::{minus, plus, span, times};

/// A normal of a plane.
#[derive(Clone, Copy)]
pub struct Normal {
    pub x: i128,
    pub y: i128,
    pub z: i128,
}

/// The normal of the outermost of the planes through `a`, `b` and one of the points, as one turns from the first.
pub(crate) fn outermost(cloud: &Cloud<'_>, a: Pt3, b: Pt3, first: Pt3) -> Normal
    requires points { All IsSmall cloud.now.points.now }
    requires a { IsSmall a }
    requires b { IsSmall b }
    requires first { IsSmall first }
    requires turned { IsTurned a b cloud.now.points.now (normal_of a b first) 0 }
    ensures narrow { IsNarrow result }
    ensures turned { IsTurned a b cloud.now.points.now result (length cloud.now.points.now) }
{
    let mut normal = glanced(cloud.points, a, b, first);
    let mut i = 0;
    'points: while i < cloud.points.len() {
        let end = inner_end(cloud, &normal, a, i);
        if end > i {
            i = end;
        } else {
            normal = further(normal, a, b, &cloud.points[i]);
            i += 1;
        }
    }
    normal
}

// The outermost of the planes through the first point of each block: most of the way.
fn glanced(points: &[Pt3], a: Pt3, b: Pt3, first: Pt3) -> Normal
    requires points { All IsSmall points.now }
    requires a { IsSmall a }
    requires b { IsSmall b }
    requires first { IsSmall first }
    requires turned { IsTurned a b points.now (normal_of a b first) 0 }
    ensures narrow { IsNarrow result }
    ensures turned { IsTurned a b points.now result 0 }
{
    let mut normal = normal_of(a, b, first);
    let mut i = 0;
    'starts: while i < points.len() {
        normal = further(normal, a, b, &points[i]);
        i = block_end(points, i);
    }
    normal
}

// The plane through the point, where it lies outside of the one so far.
fn further(normal: Normal, a: Pt3, b: Pt3, p: &Pt3) -> Normal
    requires normal { IsNarrow normal }
    requires a { IsSmall a }
    requires b { IsSmall b }
    requires p { IsSmall p.now }
    ensures value { result ≡ (if int_lt (depth_of normal a p.now) (pos 0) then normal_of a b p.now else normal) }
    ensures narrow { IsNarrow result }
{
    if is_outside(&normal, a, *p) {
        normal_of(a, b, *p)
    } else {
        normal
    }
}

#[tactic(auto, using(scad_geom::proofs::Casts::casts))]
fn is_outside(normal: &Normal, a: Pt3, p: Pt3) -> bool
    requires normal { IsNarrow normal.now }
    requires a { IsSmall a }
    requires p { IsSmall p }
    ensures { result ≡ int_lt (depth_of normal.now a p) (pos 0) }
{
    depth(normal, a, p) < 0
}

/// Whether the point lies on the inner side of the plane.
#[tactic(auto, using(scad_geom::proofs::Casts::casts))]
pub(crate) fn is_inside(normal: &Normal, a: Pt3, p: Pt3) -> bool
    requires normal { IsNarrow normal.now }
    requires a { IsSmall a }
    requires p { IsSmall p }
    ensures { result ≡ int_lt (pos 0) (depth_of normal.now a p) }
{
    depth(normal, a, p) > 0
}

#[tactic(auto, using(scad_geom::proofs::Casts::casts))]
pub(crate) fn depth(normal: &Normal, a: Pt3, p: Pt3) -> i128
    requires normal { IsNarrow normal.now }
    requires a { IsSmall a }
    requires p { IsSmall p }
    ensures { result ≡ depth_of normal.now a p }
{
    product(normal, between(a, p))
}

// The product of a normal and a way.
#[tactic(auto, using(scad_geom::proofs::Casts::casts))]
fn product(normal: &Normal, way: Way) -> i128
    requires normal { IsNarrow normal.now }
    requires x { unsigned_abs way.x ≤ 2 ^ 21 }
    requires y { unsigned_abs way.y ≤ 2 ^ 21 }
    requires z { unsigned_abs way.z ≤ 2 ^ 21 }
    ensures { result ≡ normal.now.x *ℤ way.x +ℤ (normal.now.y *ℤ way.y +ℤ normal.now.z *ℤ way.z) }
{
    let across = times::<44, 21>(normal.x, way.x);
    let along = times::<44, 21>(normal.y, way.y);
    let upwards = times::<44, 21>(normal.z, way.z);
    plus(across, plus(along, upwards))
}

// A way between points.
#[derive(Clone, Copy)]
struct Way {
    x: i128,
    y: i128,
    z: i128,
}

fn between(from: Pt3, to: Pt3) -> Way
    requires from { IsSmall from }
    requires to { IsSmall to }
    ensures x { result.x ≡ to.x -ℤ from.x }
    ensures y { result.y ≡ to.y -ℤ from.y }
    ensures z { result.z ≡ to.z -ℤ from.z }
    ensures wide_x { unsigned_abs result.x ≤ 2 ^ 21 }
    ensures wide_y { unsigned_abs result.y ≤ 2 ^ 21 }
    ensures wide_z { unsigned_abs result.z ≤ 2 ^ 21 }
{
    Way {
        x: span(from.x, to.x),
        y: span(from.y, to.y),
        z: span(from.z, to.z),
    }
}

#[tactic(auto, using(scad_geom::proofs::Casts::casts))]
pub(crate) fn normal_of(a: Pt3, b: Pt3, c: Pt3) -> Normal
    requires a { IsSmall a }
    requires b { IsSmall b }
    requires c { IsSmall c }
    ensures value { result ≡ normal_of a b c }
    ensures narrow { IsNarrow result }
{
    let u = between(a, b);
    let v = between(a, c);
    Normal {
        x: area(u.y, u.z, v.y, v.z),
        y: area(u.z, u.x, v.z, v.x),
        z: area(u.x, u.y, v.x, v.y),
    }
}

#[tactic(auto, using(scad_geom::proofs::Casts::casts))]
fn area(a: i128, b: i128, c: i128, d: i128) -> i128
    requires a { unsigned_abs a ≤ 2 ^ 21 }
    requires b { unsigned_abs b ≤ 2 ^ 21 }
    requires c { unsigned_abs c ≤ 2 ^ 21 }
    requires d { unsigned_abs d ≤ 2 ^ 21 }
    ensures value { result ≡ a *ℤ d -ℤ b *ℤ c }
    ensures size { unsigned_abs result ≤ 2 ^ 43 }
{
    minus(times::<21, 21>(a, d), times::<21, 21>(b, c))
}
