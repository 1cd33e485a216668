//! Signed areas of closed outlines.
ghost use Rattle.std.specs.Prelude.{◌≡◌, ◌^◌, ◌≤◌, unsigned_abs};
ghost use Rattle.scad_geom.specs.Loop.{path};
ghost use Rattle.scad_geom.specs.Area.{cross, cross_sum, twice_area};

use crate::point::Pt;
use crate::wide::{minus, plus, times};

/// Twice the signed area of a closed outline: above 0 where it runs counter-clockwise.
pub fn twice_area(points: &[Pt]) -> i128
    ensures { result ≡ twice_area points.now }
{
    match points {
        [] => 0,
        [first, rest @ ..] => cross_sum_round(*first, rest),
    }
}

// The sum of the cross products along the points and back to the first.
fn cross_sum_round(first: Pt, rest: &[Pt]) -> i128
    ensures { result ≡ cross_sum (path first rest.now first) }
{
    let mut sum = 0;
    let mut from = first;
    'points: for to in rest {
        sum = plus(sum, cross(from, *to));
        from = *to;
    }
    plus(sum, cross(from, first))
}

fn cross(a: Pt, b: Pt) -> i128
    ensures value { result ≡ cross (record { a = a; b = b }) }
    ensures size { unsigned_abs result ≤ 2 ^ 63 }
{
    minus(
        times::<31, 31>(a.x as i128, b.y as i128),
        times::<31, 31>(b.x as i128, a.y as i128),
    )
}
