//! Names.

ghost use Rattle.std.specs.Prelude.{◌≡◌, ◌≤◌, length};
ghost use Rattle.scad_lex.specs.Words.{word_len};

use crate::bytes::{behind, byte_at};
use crate::gap::{Class, run_len};

/// How long the longest name is that the bytes begin with, or 0 where they begin with none.
#[tactic(auto, unfolding(crate::specs::Words::word_len))]
pub(crate) fn word_len(bytes: &[u8]) -> usize
    ensures value { result ≡ word_len bytes.now }
    ensures bound { result ≤ length bytes.now }
{
    let dollar = usize::from(byte_at(bytes, 0) == b'$');
    let first = byte_at(bytes, dollar);
    if first.is_ascii_alphabetic() || first == b'_' {
        dollar + run_len(Class::WordByte, behind(bytes, dollar))
    } else {
        0
    }
}
