//! Decimal digits as whole numbers, capped just past the range.
ghost use Rattle.std.specs.Prelude.{◌≡◌, ◌+◌, ◌*◌, ◌^◌, ◌<◌, ◌≤◌, take, min};
ghost use Rattle.std.specs.Str.Parse.{AllDigits, digits_value_after};

/// The number that the digits write when they follow those of `n`, or the cap where it is greater.
pub(crate) fn digits_onto(n: u128, digits: &[u8], cap: u128) -> u128
    requires digits { AllDigits 10 digits.now }
    requires capped { n ≤ cap }
    requires room { cap ≤ 2 ^ 100 }
    ensures { result ≡ min (digits_value_after 10 n digits.now) cap }
{
    let mut value = n;
    for digit in digits {
        value = (value * 10 + u128::from(*digit - b'0')).min(cap);
    }
    value
}

/// `n` with so many zeros behind it, or the cap where it is greater.
pub(crate) fn zeros_onto(n: u128, zeros: u128, cap: u128) -> u128
    requires capped { n ≤ cap }
    requires room { cap ≤ 2 ^ 100 }
    ensures { result ≡ min (n * 10 ^ zeros) cap }
{
    let mut value = n;
    let mut left = zeros;
    while left > 0 && value > 0 && value < cap {
        value = (value * 10).min(cap);
        left -= 1;
    }
    value
}

/// The first so many digits, or all where there are fewer.
#[tactic(auto, using(crate::proofs::Digits::front_digits))]
pub(crate) fn first(digits: &[u8], count: u128) -> &[u8]
    requires { AllDigits 10 digits.now }
    ensures value { result.now ≡ take count digits.now }
    ensures digits { AllDigits 10 result.now }
{
    if count < digits.len() as u128 {
        &digits[..count as usize]
    } else {
        digits
    }
}
