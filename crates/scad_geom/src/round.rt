//! Rounding of an exact quotient to whole micrometres.
ghost use Rattle.std.specs.Prelude.{◌≡◌, ◌*◌, ◌^◌, ◌<◌, ◌≤◌, pos, ◌<ℤ◌, unsigned_abs};
ghost use Rattle.scad_geom.specs.Limits.{coordinate_limit};
ghost use Rattle.scad_geom.specs.Rounding.{half_down, IsNearest};

/// The whole number nearest to `n / d`, a half towards minus infinity.
#[tactic(auto, unfolding(crate::specs::Rounding::half_down))]
pub fn round_half_down(n: i128, d: i128) -> i32
    requires divisor { pos 0 <ℤ d }
    requires bits { d <ℤ pos (2 ^ 65) }
    requires range { unsigned_abs n ≤ coordinate_limit * unsigned_abs d }
    ensures value { result ≡ half_down n d }
    ensures nearest { IsNearest n d result }
    ensures size { unsigned_abs result ≤ coordinate_limit }
{
    -(d - 2 * n).div_euclid(2 * d) as i32
}
