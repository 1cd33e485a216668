//! One character of UTF-8 at the front of bytes.

ghost use Rattle.std.specs.Prelude.{◌≡◌, ◌+◌, ◌<◌, ◌≤◌, slice_index, IfSome};
ghost use Rattle.scad_lex.specs.Character.{tail_at, two_tails_at, form_of, two_bytes, three_bytes, four_bytes, character_at};

use crate::bytes::byte_at;

#[tactic(auto, unfolding(crate::specs::Character::tail_at))]
fn tail_at(bytes: &[u8], k: usize) -> Option<u32>
    ensures value { result ≡ tail_at bytes.now k }
    ensures bound { IfSome result (λ t. t < 64) }
{
    let b = byte_at(bytes, k);
    if b >= 0x80 && b <= 0xBF {
        Some(u32::from(b - 0x80))
    } else {
        None
    }
}

#[tactic(auto, unfolding(crate::specs::Character::two_tails_at))]
fn two_tails_at(bytes: &[u8], k: usize) -> Option<u32>
    requires { k < 4 }
    ensures value { result ≡ two_tails_at bytes.now k }
    ensures bound { IfSome result (λ t. t < 4096) }
{
    let high = tail_at(bytes, k)?;
    let low = tail_at(bytes, k + 1)?;
    Some(high * 64 + low)
}

#[tactic(auto, unfolding(crate::specs::Character::form_of))]
fn form_of(least: u32, n: usize, code: u32) -> Option<(char, usize)>
    ensures value { result ≡ form_of least n code }
    ensures bytes { IfSome result (λ found. found.1 ≡ n) }
{
    if code < least {
        return None;
    }
    match char::from_u32(code) {
        Some(c) => Some((c, n)),
        None => None,
    }
}

#[tactic(auto, unfolding(crate::specs::Character::two_bytes))]
fn two_bytes(bytes: &[u8]) -> Option<(char, usize)>
    requires { 192 ≤ slice_index bytes.now 0 }
    ensures value { result ≡ two_bytes bytes.now }
    ensures bound { IfSome result (λ found. (0 < found.1) × (found.1 ≤ 8)) }
{
    let lead = u32::from(byte_at(bytes, 0)) - 0xC0;
    let low = tail_at(bytes, 1)?;
    form_of(0x80, 2, lead * 64 + low)
}

#[tactic(auto, unfolding(crate::specs::Character::three_bytes))]
fn three_bytes(bytes: &[u8]) -> Option<(char, usize)>
    requires { 224 ≤ slice_index bytes.now 0 }
    ensures value { result ≡ three_bytes bytes.now }
    ensures bound { IfSome result (λ found. (0 < found.1) × (found.1 ≤ 8)) }
{
    let lead = u32::from(byte_at(bytes, 0)) - 0xE0;
    let low = two_tails_at(bytes, 1)?;
    form_of(0x800, 3, lead * 4096 + low)
}

#[tactic(auto, unfolding(crate::specs::Character::four_bytes))]
fn four_bytes(bytes: &[u8]) -> Option<(char, usize)>
    requires { 240 ≤ slice_index bytes.now 0 }
    ensures value { result ≡ four_bytes bytes.now }
    ensures bound { IfSome result (λ found. (0 < found.1) × (found.1 ≤ 8)) }
{
    let lead = u32::from(byte_at(bytes, 0)) - 0xF0;
    let high = tail_at(bytes, 1)?;
    let low = two_tails_at(bytes, 2)?;
    form_of(0x1_0000, 4, lead * 262_144 + high * 4096 + low)
}

/// The character that the bytes begin with and its number of bytes.
#[tactic(auto, unfolding(crate::specs::Character::character_at))]
pub(crate) fn character_at(bytes: &[u8]) -> Option<(char, usize)>
    ensures value { result ≡ character_at bytes.now }
    ensures bound { IfSome result (λ found. (0 < found.1) × (found.1 ≤ 8)) }
{
    let lead = byte_at(bytes, 0);
    if lead < 0x80 {
        Some((char::from(lead), 1))
    } else if lead < 0xC0 {
        None
    } else if lead < 0xE0 {
        two_bytes(bytes)
    } else if lead < 0xF0 {
        three_bytes(bytes)
    } else if lead < 0xF8 {
        four_bytes(bytes)
    } else {
        None
    }
}
