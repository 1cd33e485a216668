//! Turns in a plane.
ghost use Rattle.std.specs.Prelude.{◌≡◌, ℤ, pos, int_lt, ◌^◌, ◌≤◌, ◌-ℤ◌, unsigned_abs};
ghost use Rattle.scad_hull.specs.Flat.{flat_left};

use scad_geom::wide::{minus, times};
use scad_num::Num;

/// A plane with points of a type.
pub(crate) trait Plane<P> {
    /// Above 0 where the third point lies to the left of the way from the first to the second.
    ghost left: { Self → P → P → P → ℤ };

    /// Whether the way from `a` over `b` to `c` turns to the left.
    fn turns_left(&self, a: &P, b: &P, c: &P) -> bool
        ensures { result ≡ int_lt (pos 0) (left self.now a.now b.now c.now) };
}

/// The plane of pairs (x, y).
pub(crate) struct Pairs;

impl Plane<(Num, Num)> for Pairs {
    ghost left = { λ s. flat_left };

    fn turns_left(&self, a: &(Num, Num), b: &(Num, Num), c: &(Num, Num)) -> bool {
        left(a, b, c) > 0
    }
}

/// On which side of the way from `a` to `b` the point `c` lies.
pub(crate) fn left(a: &(Num, Num), b: &(Num, Num), c: &(Num, Num)) -> i128
    ensures { result ≡ flat_left a.now b.now c.now }
{
    let ahead = times::<51, 51>(gap(a.0, b.0), gap(a.1, c.1));
    let aside = times::<51, 51>(gap(a.1, b.1), gap(a.0, c.0));
    minus(ahead, aside)
}

fn gap(from: Num, to: Num) -> i128
    ensures value { result ≡ to -ℤ from }
    ensures size { unsigned_abs result ≤ 2 ^ 51 }
{
    minus(to.millionths() as i128, from.millionths() as i128)
}
