//! The exponent of a literal.
ghost use Rattle.std.specs.Prelude.{◌≡◌, ◌==◌, ◌||◌, ◌+◌, ◌*◌, ◌^◌, ◌<◌, ◌≤◌, length, slice_index, min};
ghost use Rattle.std.specs.Str.Parse.{AllDigits};
ghost use Rattle.scad_num.specs.Literal.{sign_len, power_digits, exponent_len, tens_up, tens_down};

use crate::decimal::digits_onto;
use crate::mantissa::digits_at_front;

/// Tens from here on are as good as endless, since no text has so many bytes.
pub(crate) const FAR: u128 = 1 << 100;

/// How far a literal's exponent moves the point, and how many bytes it takes. Each count stops at `FAR`.
#[derive(Clone, Copy)]
pub(crate) struct Power {
    pub up: u128,
    pub down: u128,
    pub len: usize,
}

/// Whether one of two bytes stands at this place.
fn is_either(bytes: &[u8], at: usize, a: u8, b: u8) -> bool
    requires a_is_text { 0 < a }
    requires b_is_text { 0 < b }
    ensures { result ≡ (slice_index bytes.now at == a || slice_index bytes.now at == b) }
{
    match bytes.get(at) {
        Some(c) => *c == a || *c == b,
        None => false,
    }
}

/// How many bytes the sign takes that may stand behind an exponent's mark.
fn sign_len(bytes: &[u8]) -> usize
    ensures { result ≡ sign_len bytes.now }
{
    if is_either(bytes, 1, b'+', b'-') {
        1
    } else {
        0
    }
}

/// The digits behind an exponent's mark and sign.
fn power_digits(bytes: &[u8]) -> &[u8]
    ensures value { result.now ≡ power_digits bytes.now }
    ensures digits { AllDigits 10 result.now }
    ensures within { 0 < length result.now → 1 + sign_len bytes.now + length result.now ≤ length bytes.now }
{
    let start = 1 + sign_len(bytes);
    if start <= bytes.len() {
        digits_at_front(&bytes[start..])
    } else {
        &[]
    }
}

/// How far the exponent moves the point that the bytes begin with, where they begin with one.
#[tactic(auto, unfolding(crate::specs::Literal::exponent_len, crate::specs::Literal::tens_up, crate::specs::Literal::tens_down))]
pub(crate) fn power_at(bytes: &[u8]) -> Power
    ensures up { result.up ≡ min (tens_up bytes.now) (2 ^ 100) }
    ensures down { result.down ≡ min (tens_down bytes.now) (2 ^ 100) }
    ensures len { result.len ≡ exponent_len bytes.now }
    ensures within { result.len ≤ length bytes.now }
{
    let digits = power_digits(bytes);
    if !is_either(bytes, 0, b'e', b'E') || digits.is_empty() {
        return Power {
            up: 0,
            down: 0,
            len: 0,
        };
    }
    let tens = digits_onto(0, digits, FAR);
    let len = 1 + sign_len(bytes) + digits.len();
    if is_either(bytes, 1, b'-', b'-') {
        Power {
            up: 0,
            down: tens,
            len,
        }
    } else {
        Power {
            up: tens,
            down: 0,
            len,
        }
    }
}
