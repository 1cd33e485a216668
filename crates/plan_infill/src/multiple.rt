//! The least multiple of a spacing from a place on.
ghost use Rattle.std.specs.Prelude.{◌<◌, ◌+ℤ◌, ◌<ℤ◌, ◌≤ℤ◌, pos};
ghost use Rattle.plan_infill.specs.Multiple.{IsMultiple};

/// The least whole multiple of the spacing that isn't below a place.
pub fn multiple_from(place: i32, spacing: u32) -> i64
    requires { 0 < spacing }
    ensures multiple { IsMultiple spacing result }
    ensures from { place ≤ℤ result }
    ensures first { result <ℤ (place +ℤ pos spacing) }
{
    let place = place as i64;
    place + (-place).rem_euclid(spacing as i64)
}
