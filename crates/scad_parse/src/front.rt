//! A token, and the token that stands at the front of what is left.

ghost use Rattle.std.specs.Prelude.{◌≡◌, is_some, IfOk};
ghost use Rattle.scad_grammar.specs.Tokens.{sign_number, key_number, is_sign_kind, is_key_kind, word_kind, is_sign};
ghost use Rattle.scad_grammar.specs.Tokens.{is_key, word_of, begins_with};
ghost use Rattle.scad_grammar.specs.Grammar.{begins_named, ends_arguments_kind, ends_arguments};
ghost use Rattle.scad_parse.specs.Reading.{place_of, behind, first_word};

use scad_fault::{Place, Text};
use scad_lex::{Key, Sign, Token, TokenKind};
use std::alloc::{AllocError, Global};

/// The place of the first token, or that behind the text.
pub(crate) fn place(ts: &[Token], end: Place) -> Place
    ensures { result ≡ place_of end ts.now }
{
    match ts {
        [] => end,
        [token, ..] => token.at,
    }
}

/// What stands behind the first token.
pub(crate) fn behind(ts: &[Token]) -> &[Token]
    ensures { result.now ≡ behind ts.now }
{
    match ts {
        [] => ts,
        [_, rest @ ..] => rest,
    }
}

fn sign_number(sign: Sign) -> u8
    ensures { result ≡ sign_number sign }
{
    sign as u8
}

fn key_number(key: Key) -> u8
    ensures { result ≡ key_number key }
{
    key as u8
}

fn is_sign_kind(sign: Sign, kind: &TokenKind) -> bool
    ensures { result ≡ is_sign_kind sign kind.now }
{
    match kind {
        TokenKind::Sign(found) => sign_number(*found) == sign_number(sign),
        TokenKind::Number(_) | TokenKind::Str(_) | TokenKind::Word(_) | TokenKind::Key(_) => false,
    }
}

fn is_key_kind(key: Key, kind: &TokenKind) -> bool
    ensures { result ≡ is_key_kind key kind.now }
{
    match kind {
        TokenKind::Key(found) => key_number(*found) == key_number(key),
        TokenKind::Number(_) | TokenKind::Str(_) | TokenKind::Word(_) | TokenKind::Sign(_) => false,
    }
}

/// The token is this sign.
pub(crate) fn is_sign(sign: Sign, token: &Token) -> bool
    ensures { result ≡ is_sign sign token.now }
{
    is_sign_kind(sign, &token.kind)
}

/// The token is this keyword.
pub(crate) fn is_key(key: Key, token: &Token) -> bool
    ensures { result ≡ is_key key token.now }
{
    is_key_kind(key, &token.kind)
}

fn word_kind(alloc: Global, kind: &TokenKind) -> Result<Option<Text>, AllocError>
    ensures { IfOk result (λ word. word ≡ word_kind kind.now) }
{
    match kind {
        TokenKind::Word(word) => Ok(Some(Text::of(alloc, word.as_slice())?)),
        TokenKind::Number(_) | TokenKind::Str(_) | TokenKind::Sign(_) | TokenKind::Key(_) => Ok(
            None,
        ),
    }
}

/// The word that the token is.
pub(crate) fn word(alloc: Global, token: &Token) -> Result<Option<Text>, AllocError>
    ensures { IfOk result (λ word. word ≡ word_of token.now) }
{
    word_kind(alloc, &token.kind)
}

/// The word with which the tokens begin.
pub(crate) fn first_word(alloc: Global, ts: &[Token]) -> Result<Option<Text>, AllocError>
    ensures { IfOk result (λ found. found ≡ first_word ts.now) }
{
    match ts {
        [] => Ok(None),
        [token, ..] => word(alloc, token),
    }
}

/// The tokens begin with this sign.
pub(crate) fn begins_with(sign: Sign, ts: &[Token]) -> bool
    ensures { result ≡ begins_with sign ts.now }
{
    match ts {
        [] => false,
        [token, ..] => is_sign(sign, token),
    }
}

fn named_kind(kind: &TokenKind) -> bool
    ensures { result ≡ is_some (word_kind kind.now) }
{
    match kind {
        TokenKind::Word(_) => true,
        TokenKind::Number(_) | TokenKind::Str(_) | TokenKind::Sign(_) | TokenKind::Key(_) => false,
    }
}

/// The token is a word.
pub(crate) fn is_word(token: &Token) -> bool
    ensures { result ≡ is_some (word_of token.now) }
{
    named_kind(&token.kind)
}

/// The tokens begin with a word and `=`.
pub(crate) fn is_named(ts: &[Token]) -> bool
    ensures { result ≡ begins_named ts.now }
{
    match ts {
        [] => false,
        [token, rest @ ..] => named_kind(&token.kind) && begins_with(Sign::Assign, rest),
    }
}

fn ends_arguments_kind(kind: &TokenKind) -> bool
    ensures { result ≡ ends_arguments_kind kind.now }
{
    match kind {
        TokenKind::Sign(Sign::CloseRound | Sign::Semicolon) => true,
        _ => false,
    }
}

/// The token is `)` or `;`, which ends arguments.
pub(crate) fn ends_arguments(token: &Token) -> bool
    ensures { result ≡ ends_arguments token.now }
{
    ends_arguments_kind(&token.kind)
}
