//! What stands behind the opening quote of a string.

ghost use Rattle.std.specs.Prelude.{◌≡◌, ◌+◌, ◌≤◌, ◌<◌, length, IfSome, IfOk};
ghost use Rattle.scad_lex.specs.StringLiteral.{element_at, quoted, len_of};

use crate::bytes::{behind, byte_at};
use crate::character::character_at;
use crate::escape::escape_at;
use scad_fault::Chars;
use std::alloc::{AllocError, Global};

#[derive(Drop)]
pub(crate) enum Quoted {
    /// The characters up to the closing quote, and the number of bytes up to behind it.
    Closed(Chars, usize),
    /// Characters up to the end of the text.
    Unclosed,
    /// So many bytes, and then one at which no character and no escape begins.
    Broken(usize),
}

/// The character or the escape that the bytes begin with, and its number of bytes.
#[tactic(auto, unfolding(crate::specs::StringLiteral::element_at))]
fn element_at(bytes: &[u8]) -> Option<(char, usize)>
    ensures value { result ≡ element_at bytes.now }
    ensures bound { IfSome result (λ found. (0 < found.1) × (found.1 ≤ 8)) }
{
    if byte_at(bytes, 0) == b'\\' {
        escape_at(bytes)
    } else {
        character_at(bytes)
    }
}

/// What stands behind an opening quote. Each byte is gone over once.
pub(crate) fn read_quoted(alloc: Global, bytes: &[u8]) -> Result<Quoted, AllocError>
    ensures value { IfOk result (λ q. q ≡ quoted bytes.now) }
    ensures bound { IfOk result (λ q. len_of q ≤ length bytes.now + 8) }
{
    let mut chars = Vec::new(alloc);
    let mut done = 0usize;
    'elements: while done < bytes.len() {
        let rest = behind(bytes, done);
        if byte_at(rest, 0) == b'"' {
            return Ok(Quoted::Closed(Chars::from_vec(chars), done + 1));
        }
        match element_at(rest) {
            Some((c, n)) => {
                chars.push(c)?;
                done += n;
            }
            None => return Ok(Quoted::Broken(done)),
        }
    }
    Ok(Quoted::Unclosed)
}
