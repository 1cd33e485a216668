//! Runs of one class of bytes, and comments.

ghost use Rattle.std.specs.Prelude.{◌≡◌, ◌+◌, ◌<◌, ◌≤◌, length, IfSome, slice_index, true};
ghost use Rattle.std.specs.List.{prefix_len};
ghost use Rattle.scad_lex.specs.Classes.{is_of};
ghost use Rattle.scad_lex.specs.Gap.{closed_len, closes_at};

use crate::bytes::byte_at;

/// A class of bytes that a token, blanks or a comment go on with.
#[derive(Clone, Copy)]
pub(crate) enum Class {
    Blank,
    WithinLine,
    WordByte,
}

fn is_of(class: Class, b: u8) -> bool
    ensures { result ≡ is_of class b }
{
    match class {
        Class::Blank => b == b' ' || b == b'\t' || b == b'\r' || b == b'\n',
        Class::WithinLine => b != b'\n',
        Class::WordByte => b.is_ascii_alphanumeric() || b == b'_',
    }
}

/// How many bytes of the class the bytes begin with.
pub(crate) fn run_len(class: Class, bytes: &[u8]) -> usize
    ensures value { result ≡ prefix_len (is_of class) bytes.now }
    ensures bound { result ≤ length bytes.now }
    ensures some { 0 < length bytes.now → is_of class (slice_index bytes.now 0) ≡ true → 0 < result }
{
    let mut n = 0usize;
    'run: while n < bytes.len() {
        if !is_of(class, bytes[n]) {
            return n;
        }
        n += 1;
    }
    n
}

fn closes_at(bytes: &[u8], i: usize) -> bool
    requires { i < length bytes.now }
    ensures { result ≡ closes_at bytes.now i }
{
    byte_at(bytes, i) == b'*' && byte_at(bytes, i + 1) == b'/'
}

/// How many bytes the first `*/` and what stands before it take.
pub(crate) fn closed_len(bytes: &[u8]) -> Option<usize>
    ensures value { result ≡ closed_len bytes.now }
    ensures bound { IfSome result (λ n. n ≤ length bytes.now + 1) }
{
    let mut done = 0usize;
    'comment: while done < bytes.len() {
        if closes_at(bytes, done) {
            return Some(done + 2);
        }
        done += 1;
    }
    None
}
