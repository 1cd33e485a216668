//! Number literals and their values.
ghost use Rattle.std.specs.Prelude.{◌≡◌, ◌+◌, ◌*◌, ◌^◌, ◌<◌, ◌≤◌, ◌++◌, length, take, drop, min, true};
ghost use Rattle.std.specs.Str.Parse.{AllDigits, digits_value};
ghost use Rattle.scad_num.specs.Literal.{literal_len, is_literal, literal_number, whole_digits, decimal_digits};
ghost use Rattle.scad_num.specs.Number.{most};
ghost use Rattle.scad_num.specs.Rounding.{half_up};

use crate::decimal::{digits_onto, first, zeros_onto};
use crate::fault::NumFault;
use crate::fixed_point::Num;
use crate::mantissa::mantissa_at;
use crate::power::power_at;

/// Ten times the least number of millionths that is out of range.
const CAP: u128 = 10_000_000_000_000_010;

/// The bytes behind the first so many.
fn behind(bytes: &[u8], at: usize) -> &[u8]
    requires { at ≤ length bytes.now }
    ensures { result.now ≡ drop at bytes.now }
{
    &bytes[at..]
}

/// How long the longest literal is that the bytes begin with, or 0 where they begin with none.
#[tactic(auto, unfolding(crate::specs::Literal::literal_len))]
pub fn literal_len(bytes: &[u8]) -> usize
    ensures value { result ≡ literal_len bytes.now }
    ensures within { result ≤ length bytes.now }
    ensures literal { 0 < result → is_literal (take result bytes.now) ≡ true }
{
    let mantissa = mantissa_at(bytes).len;
    if mantissa == 0 {
        0
    } else {
        mantissa + power_at(behind(bytes, mantissa)).len
    }
}

/// The millionths, rounded half up, that digits before and behind the point write where the point is
/// then moved by some places to the right or to the left; but 10^15 + 1 where they are more.
///
/// One digit more than the millionths have is read, and the number is rounded at it.
fn rounded_millionths(whole: &[u8], decimals: &[u8], up: u128, down: u128) -> u64
    requires whole_digits { AllDigits 10 whole.now }
    requires decimal_digits { AllDigits 10 decimals.now }
    requires up_room { up ≤ 2 ^ 100 }
    ensures value { result ≡ min (half_up (digits_value 10 (whole.now ++ decimals.now) * 10 ^ (6 + up)) (10 ^ (length decimals.now + down))) (most + 1) }
    ensures short { length whole.now + length decimals.now < 2 ^ 65 }
{
    let whole_len = whole.len() as u128;
    let digits_len = whole_len + decimals.len() as u128;
    let wanted = (whole_len + 7 + up).saturating_sub(down);
    let by_whole = digits_onto(0, first(whole, wanted), CAP);
    let by_digits = digits_onto(
        by_whole,
        first(decimals, wanted.saturating_sub(whole_len)),
        CAP,
    );
    let tenths = zeros_onto(by_digits, wanted.saturating_sub(digits_len), CAP);
    ((tenths + 5) / 10) as u64
}

/// The number that a literal writes, rounded once to millionths.
pub fn parse_decimal(text: &[u8]) -> Result<Num, NumFault>
    requires literal { is_literal text.now ≡ true }
    ensures { result ≡ literal_number text.now }
{
    let mantissa = mantissa_at(text);
    let power = power_at(behind(text, mantissa.len));
    let millionths = rounded_millionths(mantissa.whole, mantissa.decimals, power.up, power.down);
    Num::of(millionths as i64)
}
