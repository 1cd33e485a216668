//! Square roots.
ghost use Rattle.std.specs.Prelude.{◌≡◌, ◌*◌, ◌≤◌, pos, ◌≤ℤ◌};
ghost use Rattle.scad_num.specs.Number.{one, most};
ghost use Rattle.scad_num.specs.Root.{root, sqrt_of};

use crate::fixed_point::{Num, ONE};

/// The whole square root of a number that is small enough.
fn root(n: u128) -> u64
    requires { n ≤ most * one }
    ensures value { result ≡ root n }
    ensures small { result ≤ most }
{
    n.isqrt() as u64
}

impl Num {
    /// The square root, cut to whole millionths.
    #[tactic(auto, unfolding(crate::specs::Root::sqrt_of))]
    pub fn sqrt(self) -> Num
        requires { pos 0 ≤ℤ self }
        ensures { result ≡ sqrt_of self }
    {
        let millionths = self.millionths().unsigned_abs();
        Num::within(root(u128::from(millionths) * ONE as u128) as i64)
    }
}
