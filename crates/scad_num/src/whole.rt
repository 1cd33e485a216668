//! Floors, ceilings, roundings, and millionths as micrometres.
ghost use Rattle.std.specs.Prelude.{◌≡◌, ◌*◌, ◌≤◌};
ghost use Rattle.scad_num.specs.Number.{one, most, floor_of, ceil_of, round_of, micrometres_of};
ghost use Rattle.scad_num.specs.Rounding.{half_up};

use crate::fixed_point::{Num, ONE};
use crate::rounding::half_away;

/// The millionths of the whole number nearest to so many millionths, a half upwards.
#[tactic(auto, unfolding(crate::specs::Rounding::half_up))]
fn whole_size(millionths: u64) -> u64
    requires { millionths ≤ most }
    ensures value { result ≡ half_up millionths one * one }
    ensures small { result ≤ most }
{
    (millionths + ONE as u64 / 2) / ONE as u64 * ONE as u64
}

impl Num {
    /// The greatest whole number that is not above `self`.
    #[tactic(auto, unfolding(crate::specs::Number::floor_of))]
    pub fn floor(self) -> Num
        ensures { result ≡ floor_of self }
    {
        Num::within(self.millionths().div_euclid(ONE) * ONE)
    }

    /// The least whole number that is not below `self`.
    #[tactic(auto, unfolding(crate::specs::Number::ceil_of))]
    pub fn ceil(self) -> Num
        ensures { result ≡ ceil_of self }
    {
        self.neg().floor().neg()
    }

    /// The whole number nearest to `self`, a half away from zero.
    #[tactic(auto, unfolding(crate::specs::Number::round_of, crate::specs::Rounding::half_away))]
    pub fn round(self) -> Num
        ensures { result ≡ round_of self }
    {
        let millionths = self.millionths();
        let size = whole_size(millionths.unsigned_abs()) as i64;
        Num::within(if millionths < 0 { -size } else { size })
    }

    /// A length in millimetres as whole micrometres, rounded half away from zero.
    #[tactic(auto, unfolding(crate::specs::Number::micrometres_of))]
    pub fn to_micrometre(self) -> i64
        ensures { result ≡ micrometres_of self }
    {
        half_away(i128::from(self.millionths()), 1000) as i64
    }
}
