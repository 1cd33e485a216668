//! Numbers in whole millionths.
ghost use Rattle.std.specs.Prelude.{◌≡◌, ◌≤◌, unsigned_abs};
ghost use Rattle.scad_num.specs.Number.{most, number_of};

use crate::fault::NumFault;
use std::marker::Model;

/// The most millionths that a number has, in either direction.
pub const MOST: u64 = 1_000_000_000_000_000;

/// The millionths of 1.
pub const ONE: i64 = 1_000_000;

/// The millionths of 1, without a sign.
pub const ONE_PART: u64 = 1_000_000;

/// A number of the language, in whole millionths.
#[derive(Clone, Copy, PartialEq, Eq, PartialOrd, Ord)]
pub struct Num {
    millionths: i64,
}

impl Model for Num {
    ghost use Rattle.std.specs.Prelude.{ℤ, ◌≤◌, unsigned_abs};
    ghost use Rattle.scad_num.specs.Number.{most};

    ghost Value = { ℤ };

    ghost view = { λ n. n.millionths };

    ghost invariant = { λ n. unsigned_abs n.millionths ≤ most };

    ghost inverse = { λ z. record { millionths = z } };
}

impl Num {
    /// The number of so many millionths.
    #[tactic(auto, unfolding(crate::specs::Number::number_of))]
    pub fn of(millionths: i64) -> Result<Num, NumFault>
        ensures { result ≡ number_of millionths }
    {
        if millionths.unsigned_abs() <= MOST {
            Ok(Num { millionths })
        } else {
            Err(NumFault::Range)
        }
    }

    /// The number of so many millionths, where they are known to be in range.
    pub fn within(millionths: i64) -> Num
        requires { unsigned_abs millionths ≤ most }
        ensures { result ≡ millionths }
    {
        Num { millionths }
    }

    /// The whole millionths of the number.
    pub fn millionths(self) -> i64
        ensures value { result ≡ self }
        ensures in_range { unsigned_abs self ≤ most }
    {
        self.millionths
    }
}
