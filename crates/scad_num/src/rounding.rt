//! Quotients rounded to the nearest whole number.
ghost use Rattle.std.specs.Prelude.{◌≡◌, ◌+◌, ◌*◌, ◌^◌, ◌<◌, ◌≤◌, unsigned_abs};
ghost use Rattle.scad_num.specs.Rounding.{half_up, half_away};

/// The whole number nearest to `n / d`, a half upwards.
#[tactic(auto, unfolding(crate::specs::Rounding::half_up))]
pub fn half_up(n: u128, d: u128) -> u128
    requires divisor { 0 < d }
    requires room { 2 * n + 2 * d < 2 ^ 128 }
    ensures value { result ≡ half_up n d }
    ensures small { result ≤ n }
{
    (2 * n + d) / (2 * d)
}

/// The whole number nearest to `n / d`, a half away from zero.
#[tactic(auto, unfolding(crate::specs::Rounding::half_away))]
pub fn half_away(n: i128, d: u64) -> i128
    requires divisor { 0 < d }
    requires room { unsigned_abs n < 2 ^ 120 }
    ensures value { result ≡ half_away n d }
    ensures small { unsigned_abs result ≤ unsigned_abs n }
{
    let size = half_up(n.unsigned_abs(), u128::from(d)) as i128;
    if n < 0 { -size } else { size }
}
