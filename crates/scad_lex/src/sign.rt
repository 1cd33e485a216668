//! Signs.

ghost use Rattle.std.specs.Prelude.{◌≡◌};
ghost use Rattle.scad_lex.specs.Signs.{two_byte_sign, mark_sign, operator_sign, one_byte_sign};

use crate::token::Sign;

#[tactic(auto, unfolding(crate::specs::Signs::two_byte_sign))]
pub(crate) fn two_byte_sign(a: u8, b: u8) -> Option<Sign>
    ensures { result ≡ two_byte_sign a b }
{
    if a == b'=' && b == b'=' {
        Some(Sign::Equal)
    } else if a == b'!' && b == b'=' {
        Some(Sign::NotEqual)
    } else if a == b'<' && b == b'=' {
        Some(Sign::LessEqual)
    } else if a == b'>' && b == b'=' {
        Some(Sign::GreaterEqual)
    } else if a == b'&' && b == b'&' {
        Some(Sign::AndAnd)
    } else if a == b'|' && b == b'|' {
        Some(Sign::OrOr)
    } else {
        None
    }
}

#[tactic(auto, unfolding(crate::specs::Signs::mark_sign))]
fn mark_sign(a: u8) -> Option<Sign>
    ensures { result ≡ mark_sign a }
{
    match a {
        b'(' => Some(Sign::OpenRound),
        b')' => Some(Sign::CloseRound),
        b'[' => Some(Sign::OpenSquare),
        b']' => Some(Sign::CloseSquare),
        b'{' => Some(Sign::OpenCurly),
        b'}' => Some(Sign::CloseCurly),
        b';' => Some(Sign::Semicolon),
        b',' => Some(Sign::Comma),
        b':' => Some(Sign::Colon),
        b'?' => Some(Sign::Question),
        _ => None,
    }
}

#[tactic(auto, unfolding(crate::specs::Signs::operator_sign))]
fn operator_sign(a: u8) -> Option<Sign>
    ensures { result ≡ operator_sign a }
{
    match a {
        b'=' => Some(Sign::Assign),
        b'<' => Some(Sign::Less),
        b'>' => Some(Sign::Greater),
        b'+' => Some(Sign::Plus),
        b'-' => Some(Sign::Minus),
        b'*' => Some(Sign::Star),
        b'/' => Some(Sign::Slash),
        b'%' => Some(Sign::Percent),
        b'^' => Some(Sign::Caret),
        b'!' => Some(Sign::Bang),
        b'#' => Some(Sign::Hash),
        b'.' => Some(Sign::Dot),
        _ => None,
    }
}

#[tactic(auto, unfolding(crate::specs::Signs::one_byte_sign))]
pub(crate) fn one_byte_sign(a: u8) -> Option<Sign>
    ensures { result ≡ one_byte_sign a }
{
    match mark_sign(a) {
        Some(sign) => Some(sign),
        None => operator_sign(a),
    }
}
