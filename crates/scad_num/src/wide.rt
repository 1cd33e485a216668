//! Exact products of two numbers, and quotients of them.
ghost use Rattle.std.specs.Prelude.{◌≡◌, ◌*◌, ◌^◌, ◌<◌, ◌≤◌, ◌≢◌, pos, ◌*ℤ◌, unsigned_abs};
ghost use Rattle.scad_num.specs.Number.{number_of, half_away_over};

use crate::fault::NumFault;
use crate::fixed_point::{MOST, Num};
use crate::rounding::half_away;

/// The exact product of two counts of millionths.
pub fn times(a: i64, b: i64) -> i128
    requires a_small { unsigned_abs a ≤ 2 ^ 60 }
    requires b_small { unsigned_abs b ≤ 2 ^ 59 }
    ensures product { result ≡ a *ℤ b }
    ensures small { unsigned_abs result ≤ 2 ^ 119 }
{
    i128::from(a) * i128::from(b)
}

/// The whole number nearest to `n / d` for a `d` of either sign, a half away from zero.
#[tactic(auto, unfolding(crate::specs::Number::half_away_over))]
pub fn half_away_over(n: i128, d: i64) -> i128
    requires divisor { d ≢ pos 0 }
    requires room { unsigned_abs n < 2 ^ 120 }
    ensures { result ≡ half_away_over n d }
{
    if d < 0 {
        half_away(-n, d.unsigned_abs())
    } else {
        half_away(n, d.unsigned_abs())
    }
}

impl Num {
    /// The number of so many millionths.
    #[tactic(auto, unfolding(crate::specs::Number::number_of))]
    pub fn of_wide(millionths: i128) -> Result<Num, NumFault>
        ensures { result ≡ number_of millionths }
    {
        if millionths.unsigned_abs() <= u128::from(MOST) {
            Ok(Num::within(millionths as i64))
        } else {
            Err(NumFault::Range)
        }
    }
}
