//! Tokens with their places (OpenSCAD User Manual, "The OpenSCAD Language").

use scad_fault::{Chars, Place, Text};
use scad_num::Num;

/// A token, and the place of its first byte.
#[derive(Drop)]
pub struct Token {
    pub kind: TokenKind,
    pub at: Place,
}

/// What a token is.
#[derive(Drop)]
pub enum TokenKind {
    Number(Num),
    Str(Chars),
    Word(Text),
    Sign(Sign),
    Key(Key),
}

/// The tokens of a text in order, and the place after its last byte.
#[derive(Drop)]
pub struct Tokens {
    pub list: Vec<Token>,
    pub end: Place,
}

/// The signs of the language.
#[derive(Clone, Copy)]
pub enum Sign {
    OpenRound,
    CloseRound,
    OpenSquare,
    CloseSquare,
    OpenCurly,
    CloseCurly,
    Semicolon,
    Comma,
    Colon,
    Question,
    Assign,
    Equal,
    NotEqual,
    Less,
    LessEqual,
    Greater,
    GreaterEqual,
    Plus,
    Minus,
    Star,
    Slash,
    Percent,
    Caret,
    Bang,
    AndAnd,
    OrOr,
    Hash,
    Dot,
}

/// A word that the language keeps for itself.
#[derive(Clone, Copy)]
pub enum Key {
    Module,
    Function,
    If,
    Else,
    For,
    Let,
    Assert,
    Echo,
    Each,
    True,
    False,
    Undef,
    Include,
    Use,
}
