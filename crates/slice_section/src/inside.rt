//! Which points of a layer's plane a solid contains, by its exact cuts.
ghost use Rattle.std.specs.Prelude.{◌≡◌, ◌^◌, ◌≤◌, ◌*ℤ◌, ◌-ℤ◌, [], ◌∷◌, pos, true, int_lt, unsigned_abs, IsTrue};
ghost use Rattle.std.specs.List.{list_all};
ghost use Rattle.scad_geom.specs.Half.{meant};
ghost use Rattle.scad_geom.specs.Point.{halves};
ghost use Rattle.scad_geom.specs.Winding.{counted, side_by, turn, wind};
ghost use Rattle.scad_solid.specs.Cut.{plane_of, cuts_of, contains};
ghost use Rattle.scad_solid.specs.Range.{is_triangle_in_range};
ghost use Rattle.slice_section.specs.Exact.{point_of, IsSmall};

use crate::cut::{falling, rising};
use crate::exact::{Exact, point_between};
use crate::plane::plane_of;
use scad_geom::wide::{minus, plus, times};
use scad_geom::{Half, Pt};
use scad_solid::{Triangle, Triangles};

/// Whether the solid contains the point at a layer of height `h` micrometres: whether the exact cuts of its
/// triangles wind round it. The plane stands at `layer * h + h / 2`, by whole division, plus one half.
#[tactic(auto, using(scad_geom::proofs::Casts::casts))]
pub fn contains(solid: &Triangles, layer: u32, h: u32, p: Pt, half: Half) -> bool
    ensures { result ≡ contains (plane_of layer h) solid.now (meant half p) }
{
    let plane = plane_of(layer, h);
    winding(
        solid.as_slice(),
        plane,
        half.doubled(p.x) as i128,
        half.doubled(p.y) as i128,
    ) != 0
}

// The winding number of the cuts round a point whose coordinates are doubled.
#[tactic(auto, using(scad_geom::proofs::Casts::casts, crate::proofs::WindingSum::wound_more))]
fn winding(triangles: &[Triangle], plane: i128, x: i128, y: i128) -> i128
    requires in_range { list_all is_triangle_in_range triangles.now ≡ true }
    requires x { unsigned_abs x ≤ 2 ^ 33 }
    requires y { unsigned_abs y ≤ 2 ^ 33 }
    ensures { result ≡ wind (halves x y) (cuts_of plane triangles.now) }
{
    let mut sum = 0;
    'triangles: for triangle in triangles {
        sum = plus(sum, turn_of(triangle, plane, x, y));
    }
    sum
}

// What the cut of a triangle adds to the winding number.
#[tactic(auto, using(scad_geom::proofs::Casts::casts, crate::proofs::WindingSum::turns))]
fn turn_of(triangle: &Triangle, plane: i128, x: i128, y: i128) -> i128
    requires in_range { IsTrue (is_triangle_in_range triangle.now) }
    requires x { unsigned_abs x ≤ 2 ^ 33 }
    requires y { unsigned_abs y ≤ 2 ^ 33 }
    ensures value { result ≡ wind (halves x y) (cuts_of plane (triangle.now ∷ [])) }
    ensures size { unsigned_abs result ≤ 1 }
{
    let Some(falling) = falling(triangle, plane) else {
        return 0;
    };
    let Some(rising) = rising(triangle, plane) else {
        return 0;
    };
    let from = point_between(falling.to, falling.from, plane);
    let to = point_between(rising.from, rising.to, plane);
    crossing(&from, &to, x, y)
}

// How the segment from `a` to `b` turns round the point.
#[tactic(auto, using(scad_geom::proofs::Casts::casts), unfolding(scad_geom::specs::Winding::turn, scad_geom::specs::Winding::passage_by, scad_geom::specs::Winding::is_over, scad_geom::specs::Winding::is_beyond))]
fn crossing(a: &Exact, b: &Exact, x: i128, y: i128) -> i128
    requires a { IsSmall a.now }
    requires b { IsSmall b.now }
    requires x { unsigned_abs x ≤ 2 ^ 33 }
    requires y { unsigned_abs y ≤ 2 ^ 33 }
    ensures value { result ≡ turn true true (halves x y) (point_of a.now) (point_of b.now) }
    ensures size { unsigned_abs result ≤ 1 }
{
    let step = passage(a, b, y);
    if times::<0, 124>(step, side(a, b, x, y)) > 0 {
        step
    } else {
        0
    }
}

// How the segment from `a` to `b` passes the height, which is doubled.
fn passage(a: &Exact, b: &Exact, y: i128) -> i128
    requires a { IsSmall a.now }
    requires b { IsSmall b.now }
    requires y { unsigned_abs y ≤ 2 ^ 33 }
    ensures value { result ≡ counted (int_lt (y *ℤ b.now.d) (b.now.y *ℤ pos 2)) -ℤ counted (int_lt (y *ℤ a.now.d) (a.now.y *ℤ pos 2)) }
    ensures size { unsigned_abs result ≤ 1 }
{
    i128::from(is_above(b, y)) - i128::from(is_above(a, y))
}

fn is_above(end: &Exact, y: i128) -> bool
    requires end { IsSmall end.now }
    requires y { unsigned_abs y ≤ 2 ^ 33 }
    ensures { result ≡ int_lt (y *ℤ end.now.d) (end.now.y *ℤ pos 2) }
{
    times::<33, 22>(y, end.d) < times::<43, 2>(end.y, 2)
}

// On which side of the line through `a` and `b` the point lies.
#[tactic(auto, using(scad_geom::proofs::Casts::casts), unfolding(scad_geom::specs::Winding::side_by))]
fn side(a: &Exact, b: &Exact, x: i128, y: i128) -> i128
    requires a { IsSmall a.now }
    requires b { IsSmall b.now }
    requires x { unsigned_abs x ≤ 2 ^ 33 }
    requires y { unsigned_abs y ≤ 2 ^ 33 }
    ensures value { result ≡ side_by (halves x y) (point_of a.now) (point_of b.now) }
    ensures size { unsigned_abs result ≤ 2 ^ 124 }
{
    let left = aside(b.x, a.d, a.x, b.d, y, a.y);
    let right = aside(b.y, a.d, a.y, b.d, x, a.x);
    minus(left, right)
}

// How far one end is from another along an axis, times how far the point is from it along the other one.
fn aside(to: i128, from_divisor: i128, from: i128, to_divisor: i128, point: i128, end: i128) -> i128
    requires to { unsigned_abs to ≤ 2 ^ 43 }
    requires from_divisor { unsigned_abs from_divisor ≤ 2 ^ 22 }
    requires from { unsigned_abs from ≤ 2 ^ 43 }
    requires to_divisor { unsigned_abs to_divisor ≤ 2 ^ 22 }
    requires point { unsigned_abs point ≤ 2 ^ 33 }
    requires end { unsigned_abs end ≤ 2 ^ 43 }
    ensures value { result ≡ (to *ℤ from_divisor -ℤ from *ℤ to_divisor) *ℤ (point *ℤ from_divisor -ℤ end *ℤ pos 2) }
    ensures size { unsigned_abs result ≤ 2 ^ 122 }
{
    times::<66, 56>(
        ends_apart(to, from_divisor, from, to_divisor),
        point_apart(point, from_divisor, end),
    )
}

// How far one end is from another along an axis, over both divisors.
fn ends_apart(to: i128, from_divisor: i128, from: i128, to_divisor: i128) -> i128
    requires to { unsigned_abs to ≤ 2 ^ 43 }
    requires from_divisor { unsigned_abs from_divisor ≤ 2 ^ 22 }
    requires from { unsigned_abs from ≤ 2 ^ 43 }
    requires to_divisor { unsigned_abs to_divisor ≤ 2 ^ 22 }
    ensures value { result ≡ to *ℤ from_divisor -ℤ from *ℤ to_divisor }
    ensures size { unsigned_abs result ≤ 2 ^ 66 }
{
    minus(
        times::<43, 22>(to, from_divisor),
        times::<43, 22>(from, to_divisor),
    )
}

// How far a doubled coordinate of the point is from an end, over both divisors.
fn point_apart(point: i128, divisor: i128, end: i128) -> i128
    requires point { unsigned_abs point ≤ 2 ^ 33 }
    requires divisor { unsigned_abs divisor ≤ 2 ^ 22 }
    requires end { unsigned_abs end ≤ 2 ^ 43 }
    ensures value { result ≡ point *ℤ divisor -ℤ end *ℤ pos 2 }
    ensures size { unsigned_abs result ≤ 2 ^ 56 }
{
    minus(times::<33, 22>(point, divisor), times::<43, 2>(end, 2))
}
