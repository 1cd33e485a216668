//! Quotients rounded down and up.
ghost use Rattle.std.specs.Prelude.{◌+◌, ◌^◌, ◌≤◌, pos, ◌<ℤ◌, unsigned_abs};
ghost use Rattle.plan_infill.specs.Quotient.{IsFloor, IsCeiling};

/// The greatest whole number that is at most `n / d`.
pub(crate) fn floor(n: i128, d: i128) -> i128
    requires divisor { pos 0 <ℤ d }
    requires size { unsigned_abs n ≤ 2 ^ 100 }
    ensures value { IsFloor n d result }
    ensures size { unsigned_abs result ≤ unsigned_abs n + 1 }
{
    n.div_euclid(d)
}

/// The least whole number that is at least `n / d`.
pub(crate) fn ceiling(n: i128, d: i128) -> i128
    requires divisor { pos 0 <ℤ d }
    requires size { unsigned_abs n ≤ 2 ^ 100 }
    ensures value { IsCeiling n d result }
    ensures size { unsigned_abs result ≤ unsigned_abs n + 1 }
{
    -(-n).div_euclid(d)
}
