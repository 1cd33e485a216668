//! Numbers in words.
ghost use Rattle.std.specs.Prelude.{◌≡◌, ◌+◌, ◌*◌, ◌^◌, ◌≤◌, ◌==◌, IsTrue, pos, min};
ghost use Rattle.std.specs.Option.{option_map};
ghost use Rattle.std.specs.Str.Parse.{digits_value_after};
ghost use Rattle.gcode_text.specs.Cap.{cap, capped, capped_number, fits_cap};
ghost use Rattle.gcode_text.specs.Reading.{negative, are_digits, whole_size, pointed_size, size_of, number};

use crate::scan::{behind_first, byte_at};
use text_scan::{all_digits, first_at};

/// No accepted number is greater.
const CAP: u128 = 4_000_000_000_000_000_000;

/// The number that a text writes in units of which 10 ^ `places` make one, cut to the cap.
#[tactic(auto, unfolding(crate::specs::Reading::number), using(crate::proofs::Numbers::signs))]
pub(crate) fn number(places: u32, text: &[u8]) -> Option<i64>
    requires { places ≤ 5 }
    ensures { result ≡ option_map capped_number (number places text.now) }
{
    if byte_at(text, 0) == b'-' {
        negative(size(places, behind_first(text)))
    } else {
        positive(size(places, text))
    }
}

fn negative(size: Option<u64>) -> Option<i64>
    requires { IsTrue (fits_cap size) }
    ensures { result ≡ option_map negative size }
{
    match size {
        Some(n) => Some(-(n as i64)),
        None => None,
    }
}

fn positive(size: Option<u64>) -> Option<i64>
    requires { IsTrue (fits_cap size) }
    ensures { result ≡ option_map pos size }
{
    match size {
        Some(n) => Some(n as i64),
        None => None,
    }
}

#[tactic(auto, unfolding(crate::specs::Reading::size_of))]
fn size(places: u32, text: &[u8]) -> Option<u64>
    requires { places ≤ 5 }
    ensures value { result ≡ option_map capped (size_of places text.now) }
    ensures fits { IsTrue (fits_cap result) }
{
    let at = first_at(text, b'.');
    if at < text.len() {
        pointed_size(places, &text[..at], &text[at + 1..])
    } else {
        whole_size(places, text)
    }
}

#[tactic(auto, unfolding(crate::specs::Reading::whole_size), using(crate::proofs::Numbers::sizes))]
fn whole_size(places: u32, whole: &[u8]) -> Option<u64>
    requires { places ≤ 5 }
    ensures value { result ≡ option_map capped (whole_size places whole.now) }
    ensures fits { IsTrue (fits_cap result) }
{
    if are_digits(whole) {
        Some(scaled(digits_onto(0, whole), places))
    } else {
        None
    }
}

#[tactic(auto, unfolding(crate::specs::Reading::pointed_size), using(crate::proofs::Numbers::sizes))]
fn pointed_size(places: u32, whole: &[u8], decimals: &[u8]) -> Option<u64>
    requires { places ≤ 5 }
    ensures value { result ≡ option_map capped (pointed_size places whole.now decimals.now) }
    ensures fits { IsTrue (fits_cap result) }
{
    if are_digits(whole) && are_digits(decimals) && decimals.len() <= places as usize {
        let digits = digits_onto(digits_onto(0, whole), decimals);
        Some(scaled(digits, places - decimals.len() as u32))
    } else {
        None
    }
}

/// So many zeros behind a number.
fn scaled(n: u128, zeros: u32) -> u64
    requires zeros { zeros ≤ 5 }
    requires capped { n ≤ cap }
    ensures value { result ≡ min (n * 10 ^ zeros) cap }
{
    (n * 10u128.pow(zeros)).min(CAP) as u64
}

#[tactic(auto, unfolding(crate::specs::Reading::are_digits))]
fn are_digits(text: &[u8]) -> bool
    ensures { result ≡ are_digits text.now }
{
    !text.is_empty() && all_digits(text)
}

/// The number that the digits write when they follow those of `n`, cut to the cap.
#[tactic(auto, unfolding(crate::specs::Reading::are_digits))]
fn digits_onto(n: u128, digits: &[u8]) -> u128
    requires digits { IsTrue (are_digits digits.now) }
    requires capped { n ≤ cap }
    ensures value { result ≡ min (digits_value_after 10 n digits.now) cap }
    ensures capped { result ≤ cap }
{
    let mut value = n;
    for digit in digits {
        value = (value * 10 + u128::from(*digit - b'0')).min(CAP);
    }
    value
}
