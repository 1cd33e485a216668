//! Sums, products, quotients and remainders of numbers, each rounded once.
ghost use Rattle.std.specs.Prelude.{◌≡◌, neg_ℤ};
ghost use Rattle.scad_num.specs.Number.{sum_of, difference_of, product_of, quotient_of, remainder_of};

use crate::fault::NumFault;
use crate::fixed_point::{Num, ONE};
use crate::rounding::half_away;
use crate::wide::{half_away_over, times};

impl Num {
    /// `self + b`.
    pub fn add(self, b: Num) -> Result<Num, NumFault>
        ensures { result ≡ sum_of self b }
    {
        Num::of(self.millionths() + b.millionths())
    }

    /// `self - b`.
    pub fn sub(self, b: Num) -> Result<Num, NumFault>
        ensures { result ≡ difference_of self b }
    {
        Num::of(self.millionths() - b.millionths())
    }

    /// `self * b`, rounded half away from zero.
    pub fn mul(self, b: Num) -> Result<Num, NumFault>
        ensures { result ≡ product_of self b }
    {
        Num::of_wide(half_away(times(self.millionths(), b.millionths()), ONE as u64))
    }

    /// `self / b`, rounded half away from zero.
    #[tactic(auto, unfolding(crate::specs::Number::quotient_of))]
    pub fn div(self, b: Num) -> Result<Num, NumFault>
        ensures { result ≡ quotient_of self b }
    {
        let divisor = b.millionths();
        if divisor == 0 {
            return Err(NumFault::ZeroDivisor);
        }
        Num::of_wide(half_away_over(times(self.millionths(), ONE), divisor))
    }

    /// What `self / b` leaves, with the sign of `self`.
    #[tactic(auto, unfolding(crate::specs::Number::remainder_of))]
    pub fn rem(self, b: Num) -> Result<Num, NumFault>
        ensures { result ≡ remainder_of self b }
    {
        let divisor = b.millionths();
        if divisor == 0 {
            return Err(NumFault::ZeroDivisor);
        }
        Ok(Num::within(self.millionths() % divisor))
    }

    /// `-self`.
    pub fn neg(self) -> Num
        ensures { result ≡ neg_ℤ self }
    {
        Num::within(-self.millionths())
    }
}
