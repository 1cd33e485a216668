//! The planes of faces, by two coordinates.
ghost use Rattle.std.specs.Prelude.{◌≡◌, ◌^◌, ◌≤◌, ◌-ℤ◌, ◌*ℤ◌, ℤ, pos, int_lt, unsigned_abs};
ghost use Rattle.scad_hull.specs.Space.{face_left, across_left, level_left};
ghost use Rattle.scad_hull.specs.declared.turning.Normal.{Normal};

use crate::plane::Plane;
use crate::turning::Normal;
use scad_geom::Pt3;
use scad_geom::wide::{minus, span, times};

/// The plane of a face, by its inward normal.
#[derive(Drop)]
pub(crate) struct Facing {
    pub normal: Normal,
}

impl Plane<Pt3> for Facing {
    ghost left = { λ s. face_left s.normal };

    fn turns_left(&self, a: &Pt3, b: &Pt3, c: &Pt3) -> bool {
        let n = self.normal;
        if n.x > 0 {
            turns(a.y, a.z, b.y, b.z, c.y, c.z)
        } else if n.x < 0 {
            turns(a.z, a.y, b.z, b.y, c.z, c.y)
        } else {
            turns_across(&n, a, b, c)
        }
    }
}

// In a plane along the x direction.
fn turns_across(n: &Normal, a: &Pt3, b: &Pt3, c: &Pt3) -> bool
    ensures { result ≡ int_lt (pos 0) (across_left n.now a.now b.now c.now) }
{
    if n.y > 0 {
        turns(a.z, a.x, b.z, b.x, c.z, c.x)
    } else if n.y < 0 {
        turns(a.x, a.z, b.x, b.z, c.x, c.z)
    } else {
        turns_level(n, a, b, c)
    }
}

// In a level plane.
fn turns_level(n: &Normal, a: &Pt3, b: &Pt3, c: &Pt3) -> bool
    ensures { result ≡ int_lt (pos 0) (level_left n.now a.now b.now c.now) }
{
    if n.z > 0 {
        turns(a.x, a.y, b.x, b.y, c.x, c.y)
    } else {
        turns(a.y, a.x, b.y, b.x, c.y, c.x)
    }
}

#[tactic(auto, using(scad_geom::proofs::Casts::casts))]
fn turns(ax: i32, ay: i32, bx: i32, by: i32, cx: i32, cy: i32) -> bool
    ensures { result ≡ int_lt (pos 0) ((bx -ℤ ax) *ℤ (cy -ℤ ay) -ℤ (by -ℤ ay) *ℤ (cx -ℤ ax)) }
{
    minus(area(ax, bx, ay, cy), area(ay, by, ax, cx)) > 0
}

// The area of a rectangle by its ends along both axes.
#[tactic(auto, using(scad_geom::proofs::Casts::casts))]
fn area(left: i32, right: i32, low: i32, high: i32) -> i128
    ensures value { result ≡ (right -ℤ left) *ℤ (high -ℤ low) }
    ensures size { unsigned_abs result ≤ 2 ^ 64 }
{
    times::<32, 32>(span(left, right), span(low, high))
}
