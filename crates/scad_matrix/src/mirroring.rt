//! Reflections.
ghost use Rattle.std.specs.Prelude.{◌≡◌, ◌*◌, ◌^◌, ◌<◌, ◌≤◌, ◌*ℤ◌, ◌≤ℤ◌, pos, unsigned_abs};
ghost use Rattle.scad_num.specs.Rounding.{half_up, half_away};
ghost use Rattle.scad_matrix.specs.Makers.{square_of, reflection, along, across};

use crate::makers::translate;
use crate::matrix::{Matrix, Row};
use crate::products::product;
use scad_geom::wide::{minus, plus, times};
use scad_num::{Num, half_up};

/// The reflection in the plane through the origin with that normal; the identity where all three are 0.
#[tactic(auto, using(scad_geom::proofs::Casts::casts), unfolding(crate::specs::Makers::reflection))]
pub fn mirror(x: Num, y: Num, z: Num) -> Matrix
    ensures { result ≡ reflection x y z }
{
    let square = square(x, y, z);
    let o = Num::within(0);
    if square == 0 {
        return translate(o, o, o);
    }
    let xy = across(x, y, square);
    let yz = across(y, z, square);
    let zx = across(z, x, square);
    Matrix {
        x: Row {
            x: along(x, square),
            y: xy,
            z: zx,
            shift: o,
        },
        y: Row {
            x: xy,
            y: along(y, square),
            z: yz,
            shift: o,
        },
        z: Row {
            x: zx,
            y: yz,
            z: along(z, square),
            shift: o,
        },
    }
}

// The square of a normal's length.
fn square(x: Num, y: Num, z: Num) -> i128
    ensures value { result ≡ square_of x y z }
    ensures size { unsigned_abs result ≤ 2 ^ 102 }
{
    plus(plus(product(x, x), product(y, y)), product(z, z))
}

// An entry on the diagonal, for a normal of this square that has the coordinate v.
fn along(v: Num, square: i128) -> Num
    requires part { (v *ℤ v) ≤ℤ square }
    requires some { pos 1 ≤ℤ square }
    requires small { unsigned_abs square ≤ 2 ^ 102 }
    ensures { result ≡ along v square }
{
    let whole = times::<20, 102>(1_000_000, square);
    let twice = times::<21, 100>(2_000_000, product(v, v));
    rounded(minus(whole, twice), square.unsigned_abs())
}

// An entry beside the diagonal, for a normal of this square that has the coordinates v and w.
fn across(v: Num, w: Num, square: i128) -> Num
    requires part { 2 * unsigned_abs (v *ℤ w) ≤ unsigned_abs square }
    requires some { pos 1 ≤ℤ square }
    requires small { unsigned_abs square ≤ 2 ^ 102 }
    ensures { result ≡ across v w square }
{
    rounded(
        times::<21, 100>(-2_000_000, product(v, w)),
        square.unsigned_abs(),
    )
}

// n / d, rounded to the nearest whole number, a half away from zero.
fn rounded(n: i128, d: u128) -> Num
    requires divisor { 0 < d }
    requires room { d ≤ 2 ^ 102 }
    requires small { unsigned_abs n ≤ 1000000 * d }
    ensures { result ≡ half_away n d }
{
    let size = rounded_size(n.unsigned_abs(), d);
    if n < 0 {
        Num::within(-size)
    } else {
        Num::within(size)
    }
}

fn rounded_size(n: u128, d: u128) -> i64
    requires divisor { 0 < d }
    requires room { d ≤ 2 ^ 102 }
    requires small { n ≤ 1000000 * d }
    ensures value { result ≡ pos (half_up n d) }
    ensures small { unsigned_abs result ≤ 1000000 }
{
    half_up(n, d) as i64
}
