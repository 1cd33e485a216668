//! One escape of a string.

ghost use Rattle.std.specs.Prelude.{◌≡◌, ◌<◌, ◌≤◌, IfSome};
ghost use Rattle.scad_lex.specs.Escape.{digit_at, two_digits, four_digits, six_digits, coded, escape_at};

use crate::bytes::byte_at;

#[tactic(auto, unfolding(crate::specs::Escape::digit_at))]
fn digit_at(bytes: &[u8], k: usize) -> Option<u32>
    ensures value { result ≡ digit_at bytes.now k }
    ensures bound { IfSome result (λ d. d < 16) }
{
    let b = byte_at(bytes, k);
    if b.is_ascii_hexdigit() {
        char::from(b).to_digit(16)
    } else {
        None
    }
}

#[tactic(auto, unfolding(crate::specs::Escape::two_digits))]
fn two_digits(bytes: &[u8], k: usize) -> Option<u32>
    requires { k < 8 }
    ensures value { result ≡ two_digits bytes.now k }
    ensures bound { IfSome result (λ n. n < 256) }
{
    let high = digit_at(bytes, k)?;
    let low = digit_at(bytes, k + 1)?;
    Some(high * 16 + low)
}

#[tactic(auto, unfolding(crate::specs::Escape::four_digits))]
fn four_digits(bytes: &[u8], k: usize) -> Option<u32>
    requires { k < 6 }
    ensures value { result ≡ four_digits bytes.now k }
    ensures bound { IfSome result (λ n. n < 65536) }
{
    let high = two_digits(bytes, k)?;
    let low = two_digits(bytes, k + 2)?;
    Some(high * 256 + low)
}

#[tactic(auto, unfolding(crate::specs::Escape::six_digits))]
fn six_digits(bytes: &[u8], k: usize) -> Option<u32>
    requires { k < 4 }
    ensures value { result ≡ six_digits bytes.now k }
    ensures bound { IfSome result (λ n. n < 16777216) }
{
    let high = two_digits(bytes, k)?;
    let low = four_digits(bytes, k + 2)?;
    Some(high * 65536 + low)
}

#[tactic(auto, unfolding(crate::specs::Escape::coded))]
fn coded(limit: u32, n: usize, code: u32) -> Option<(char, usize)>
    ensures value { result ≡ coded limit n code }
    ensures bytes { IfSome result (λ found. found.1 ≡ n) }
{
    if code == 0 || code >= limit {
        return None;
    }
    match char::from_u32(code) {
        Some(c) => Some((c, n)),
        None => None,
    }
}

/// The character of the escape that the bytes begin with, and its number of bytes.
#[tactic(auto, unfolding(crate::specs::Escape::escape_at))]
pub(crate) fn escape_at(bytes: &[u8]) -> Option<(char, usize)>
    ensures value { result ≡ escape_at bytes.now }
    ensures bound { IfSome result (λ found. (0 < found.1) × (found.1 ≤ 8)) }
{
    match byte_at(bytes, 1) {
        b'n' => Some(('\n', 2)),
        b't' => Some(('\t', 2)),
        b'r' => Some(('\r', 2)),
        b'\\' => Some(('\\', 2)),
        b'"' => Some(('"', 2)),
        b'x' => coded(128, 4, two_digits(bytes, 2)?),
        b'u' => coded(0x11_0000, 6, four_digits(bytes, 2)?),
        b'U' => coded(0x11_0000, 8, six_digits(bytes, 2)?),
        _ => None,
    }
}
