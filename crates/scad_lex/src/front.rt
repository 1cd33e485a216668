//! What stands at the front of a text.

ghost use Rattle.std.specs.Prelude.{◌≡◌, ◌<◌, ◌+◌, ◌^◌, length, IfOk, true};
ghost use Rattle.scad_lex.specs.Front.{front_of, comment_of, string_of, numeral_of, word_of, sign_of, IsWithin};
ghost use Rattle.scad_lex.specs.Gap.{closed_len};
ghost use Rattle.scad_lex.specs.StringLiteral.{quoted};
ghost use Rattle.scad_lex.specs.Keys.{key_of};
ghost use Rattle.scad_lex.specs.Signs.{two_byte_sign, one_byte_sign};
ghost use Rattle.scad_num.specs.Literal.{literal_len, literal_number, is_literal};

use crate::bytes::{behind, byte_at, first};
use crate::gap::{Class, closed_len, run_len};
use crate::key::key_of;
use crate::sign::{one_byte_sign, two_byte_sign};
use crate::string_body::{Quoted, read_quoted};
use crate::token::TokenKind;
use crate::word::word_len;
use scad_fault::Text;
use scad_num::{literal_len, parse_decimal};
use std::alloc::{AllocError, Global};

#[derive(Drop)]
pub(crate) enum Front {
    /// Blanks or a comment, of so many bytes.
    Gap(usize),
    /// A token, of so many bytes.
    Cut(TokenKind, usize),
    /// So many bytes, and then one that may not stand there.
    Bad(usize),
    /// A number that is out of range.
    TooLarge,
}

/// A comment, whose `/*` stands before these bytes.
#[tactic(auto, unfolding(crate::specs::Front::comment_of))]
fn comment(bytes: &[u8]) -> Front
    ensures value { result ≡ comment_of (closed_len bytes.now) }
    ensures bound { IsWithin result (length bytes.now + 2) }
{
    match closed_len(bytes) {
        Some(n) => Front::Gap(n + 2),
        None => Front::Bad(0),
    }
}

/// A string, whose `"` stands before these bytes.
#[tactic(auto, unfolding(crate::specs::Front::string_of))]
fn string(alloc: Global, bytes: &[u8]) -> Result<Front, AllocError>
    requires { length bytes.now < 2 ^ 63 }
    ensures value { IfOk result (λ f. f ≡ string_of (quoted bytes.now)) }
    ensures bound { IfOk result (λ f. IsWithin f (length bytes.now + 1)) }
{
    match read_quoted(alloc, bytes)? {
        Quoted::Closed(chars, n) => Ok(Front::Cut(TokenKind::Str(chars), n + 1)),
        Quoted::Unclosed => Ok(Front::Bad(0)),
        Quoted::Broken(n) => Ok(Front::Bad(n + 1)),
    }
}

/// The bytes are a number.
#[tactic(auto, unfolding(crate::specs::Front::numeral_of))]
fn numeral(bytes: &[u8]) -> Front
    requires literal { is_literal bytes.now ≡ true }
    requires some { 0 < length bytes.now }
    ensures value { result ≡ numeral_of bytes.now (literal_number bytes.now) }
    ensures bound { IsWithin result (length bytes.now) }
{
    match parse_decimal(bytes) {
        Ok(number) => Front::Cut(TokenKind::Number(number), bytes.len()),
        Err(_) => Front::TooLarge,
    }
}

/// The bytes are a name.
#[tactic(auto, unfolding(crate::specs::Front::word_of))]
fn word(alloc: Global, bytes: &[u8]) -> Result<Front, AllocError>
    requires { 0 < length bytes.now }
    ensures value { IfOk result (λ f. f ≡ word_of bytes.now (key_of bytes.now)) }
    ensures bound { IfOk result (λ f. IsWithin f (length bytes.now)) }
{
    match key_of(bytes) {
        Some(key) => Ok(Front::Cut(TokenKind::Key(key), bytes.len())),
        None => {
            let text = Text::of(alloc, bytes)?;
            Ok(Front::Cut(TokenKind::Word(text), bytes.len()))
        }
    }
}

#[tactic(auto, unfolding(crate::specs::Front::sign_of))]
fn sign(a: u8, b: u8) -> Front
    ensures value { result ≡ sign_of (two_byte_sign a b) (one_byte_sign a) }
    ensures bound { IsWithin result 0 }
{
    match two_byte_sign(a, b) {
        Some(sign) => Front::Cut(TokenKind::Sign(sign), 2),
        None => match one_byte_sign(a) {
            Some(sign) => Front::Cut(TokenKind::Sign(sign), 1),
            None => Front::Bad(0),
        },
    }
}

/// What stands at the front of bytes.
#[tactic(auto, unfolding(crate::specs::Front::front_of))]
pub(crate) fn front_of(alloc: Global, bytes: &[u8]) -> Result<Front, AllocError>
    requires { 0 < length bytes.now }
    ensures value { IfOk result (λ f. f ≡ front_of bytes.now) }
    ensures bound { IfOk result (λ f. IsWithin f (length bytes.now)) }
{
    let a = byte_at(bytes, 0);
    let b = byte_at(bytes, 1);
    if a == b' ' || a == b'\t' || a == b'\r' || a == b'\n' {
        return Ok(Front::Gap(run_len(Class::Blank, bytes)));
    }
    if a == b'/' && b == b'/' {
        return Ok(Front::Gap(run_len(Class::WithinLine, bytes)));
    }
    if a == b'/' && b == b'*' {
        return Ok(comment(behind(bytes, 2)));
    }
    if a == b'"' {
        return string(alloc, behind(bytes, 1));
    }
    let number_len = literal_len(bytes);
    if number_len > 0 {
        return Ok(numeral(first(bytes, number_len)));
    }
    let word_len = word_len(bytes);
    if word_len > 0 {
        return word(alloc, first(bytes, word_len));
    }
    Ok(sign(a, b))
}
