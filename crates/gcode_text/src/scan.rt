//! Places in bytes.
ghost use Rattle.std.specs.Prelude.{◌≡◌, ◌<◌, ◌≤◌, ◌==◌, ◌-◌, length, drop, slice_index};
ghost use Rattle.text_scan.specs.Marks.{first_at};
ghost use Rattle.gcode_text.specs.Reading.{without_return, without_comment, words, space};

use text_scan::first_at;

/// The byte at a place, or 0.
pub(crate) fn byte_at(bytes: &[u8], at: usize) -> u8
    ensures { result ≡ slice_index bytes.now at }
{
    match bytes.get(at) {
        Some(b) => *b,
        None => 0,
    }
}

/// What stands behind the first byte.
pub(crate) fn behind_first(bytes: &[u8]) -> &[u8]
    ensures { result.now ≡ drop 1 bytes.now }
{
    if bytes.is_empty() { bytes } else { &bytes[1..] }
}

#[tactic(auto, unfolding(crate::specs::Reading::without_return))]
fn without_return(text: &[u8]) -> &[u8]
    ensures { result.now ≡ without_return text.now }
{
    let last = text.len().saturating_sub(1);
    if byte_at(text, last) == b'\r' {
        &text[..last]
    } else {
        text
    }
}

#[tactic(auto, unfolding(crate::specs::Reading::without_comment))]
fn without_comment(text: &[u8]) -> &[u8]
    ensures { result.now ≡ without_comment text.now }
{
    &text[..first_at(text, b';')]
}

/// What stands in front of a line's comment.
pub(crate) fn code_of(line: &[u8]) -> &[u8]
    ensures { result.now ≡ without_comment (without_return line.now) }
{
    without_comment(without_return(line))
}

/// The bytes behind the spaces in front, which have the same words.
#[tactic(auto, using(crate::proofs::Words::word_in_front))]
pub(crate) fn skip_spaces(text: &[u8]) -> &[u8]
    ensures words { words result.now ≡ words text.now }
    ensures shorter { length result.now ≤ length text.now }
    ensures word { 0 < length result.now → 0 < first_at space result.now }
{
    let mut rest = text;
    'spaces: while byte_at(rest, 0) == b' ' {
        rest = behind_first(rest);
    }
    rest
}
