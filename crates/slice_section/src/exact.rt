//! Exact points of cuts: two numbers over one divisor.
ghost use Rattle.std.specs.Prelude.{◌≡◌, ◌+◌, ◌^◌, ◌*◌, ◌≤◌, ◌*ℤ◌, ◌-ℤ◌, pos, unsigned_abs};
ghost use Rattle.scad_geom.specs.Limits.{coordinate_limit, point_limit};
ghost use Rattle.scad_solid.specs.Cut.{weighted, point_between};
ghost use Rattle.slice_section.specs.Exact.{point_of, IsSmall};
ghost use Rattle.slice_section.specs.Through.{IsBetween, IsThrough};

use scad_geom::Pt3;
use scad_geom::wide::{minus, plus, times};

/// The point (x / d, y / d), with `d` above 0.
#[derive(Clone, Copy)]
pub(crate) struct Exact {
    pub(crate) x: i128,
    pub(crate) y: i128,
    pub(crate) d: i128,
}

/// Where the side between a point below the plane and one above meets it.
pub(crate) fn point_between(lower: Pt3, upper: Pt3, plane: i128) -> Exact
    requires { IsThrough plane lower upper }
    ensures value { point_of result ≡ point_between lower upper plane }
    ensures small { IsSmall result }
{
    Exact {
        x: weighted(lower.x, upper.x, lower.z, upper.z, plane),
        y: weighted(lower.y, upper.y, lower.z, upper.z, plane),
        d: apart(lower.z, upper.z),
    }
}

/// One coordinate where the side from `lower` at the height `low` to `upper` at the height `high` meets the
/// plane between them, times twice the height between the two.
pub(crate) fn weighted(lower: i32, upper: i32, low: i32, high: i32, plane: i128) -> i128
    requires lower { unsigned_abs lower ≤ point_limit }
    requires upper { unsigned_abs upper ≤ point_limit }
    requires heights { IsBetween plane low high }
    ensures value { result ≡ weighted lower upper low high plane }
    ensures mean { unsigned_abs result ≤ coordinate_limit * unsigned_abs (pos 2 *ℤ high -ℤ pos 2 *ℤ low) }
    ensures size { unsigned_abs result ≤ 2 ^ 43 }
{
    let down = up_to(high, plane);
    let up = down_to(low, plane);
    plus(
        times::<20, 22>(lower as i128, down),
        times::<20, 22>(upper as i128, up),
    )
}

// Twice the height from the plane up to `high`.
fn up_to(high: i32, plane: i128) -> i128
    requires small { unsigned_abs high ≤ point_limit }
    requires narrow { unsigned_abs plane ≤ 2 ^ 21 }
    ensures value { result ≡ pos 2 *ℤ high -ℤ plane }
    ensures size { unsigned_abs result ≤ 2 ^ 22 }
{
    minus(2 * high as i128, plane)
}

// Twice the height from the plane down to `low`.
fn down_to(low: i32, plane: i128) -> i128
    requires small { unsigned_abs low ≤ point_limit }
    requires narrow { unsigned_abs plane ≤ 2 ^ 21 }
    ensures value { result ≡ plane -ℤ pos 2 *ℤ low }
    ensures size { unsigned_abs result ≤ 2 ^ 22 }
{
    minus(plane, 2 * low as i128)
}

/// Twice the height between the two.
pub(crate) fn apart(low: i32, high: i32) -> i128
    ensures value { result ≡ pos 2 *ℤ high -ℤ pos 2 *ℤ low }
    ensures size { unsigned_abs result ≤ 2 * unsigned_abs high + 2 * unsigned_abs low }
{
    minus(2 * high as i128, 2 * low as i128)
}
