//! Tokens, each with the blank behind it.
ghost use Rattle.std.specs.Prelude.{◌≡◌};
ghost use Rattle.std.specs.List.{flat_map};
ghost use Rattle.scad_num.specs.Text.{number_text};
ghost use Rattle.scad_ast.specs.Text.{spaced, character_text, string_text, boolean_text, prefix_text, operator_text, separator, marks_text};
ghost use Rattle.text_scan.specs.Printing.{Adds};

use crate::operator::{BinOp, UnOp};
use scad_fault::{Chars, Text};
use scad_num::Num;
use text_scan::Printer;

/// Appends a token and a blank.
pub fn write_token(out: &mut Printer, token: &[u8])
    ensures { Adds (spaced token.now) out.old out.new }
{
    out.put(token);
    out.put(b" ");
}

/// Appends a word and a blank.
pub fn write_word(out: &mut Printer, word: &Text)
    ensures { Adds (spaced word.now) out.old out.new }
{
    write_token(out, word.as_slice());
}

/// Appends a number and a blank.
pub fn write_number(out: &mut Printer, number: Num)
    ensures { Adds (spaced (number_text number)) out.old out.new }
{
    write_token(out, number.text().as_slice());
}

/// Appends `true` or `false` and a blank.
pub fn write_boolean(out: &mut Printer, b: bool)
    ensures { Adds (spaced (boolean_text b)) out.old out.new }
{
    if b {
        write_token(out, b"true");
    } else {
        write_token(out, b"false");
    }
}

/// Appends a string in quotes and a blank.
pub fn write_string(out: &mut Printer, chars: &Chars)
    ensures { Adds (spaced (string_text chars.now)) out.old out.new }
{
    out.put(b"\"");
    write_characters(out, chars.as_slice());
    write_token(out, b"\"");
}

fn write_characters(out: &mut Printer, chars: &[char])
    ensures { Adds (flat_map character_text chars.now) out.old out.new }
{
    'characters: for c in chars {
        write_character(out, *c);
    }
}

fn write_character(out: &mut Printer, c: char)
    ensures { Adds (character_text c) out.old out.new }
{
    if c == '"' {
        out.put(b"\\\"");
    } else if c == '\\' {
        out.put(b"\\\\");
    } else {
        out.put(c.encode_utf8(&mut [0; 4]).as_bytes());
    }
}

/// Appends an operator of one operand.
pub fn write_prefix(out: &mut Printer, op: UnOp)
    ensures { Adds (spaced (prefix_text op)) out.old out.new }
{
    match op {
        UnOp::Not => write_token(out, b"!"),
        UnOp::Plus => write_token(out, b"+"),
        UnOp::Minus => write_token(out, b"-"),
    }
}

fn operator_word(op: BinOp) -> &'static [u8]
    ensures { result.now ≡ operator_text op }
{
    match op {
        BinOp::Or => b"||",
        BinOp::And => b"&&",
        BinOp::Eq => b"==",
        BinOp::Ne => b"!=",
        BinOp::Lt => b"<",
        BinOp::Le => b"<=",
        BinOp::Gt => b">",
        BinOp::Ge => b">=",
        BinOp::Add => b"+",
        BinOp::Sub => b"-",
        BinOp::Mul => b"*",
        BinOp::Div => b"/",
        BinOp::Rem => b"%",
    }
}

/// Appends an operator of two operands.
pub fn write_operator(out: &mut Printer, op: BinOp)
    ensures { Adds (spaced (operator_text op)) out.old out.new }
{
    write_token(out, operator_word(op));
}

/// Appends a comma before each member of a list but the first.
pub fn write_separator(out: &mut Printer, first: bool)
    ensures { Adds (separator first) out.old out.new }
{
    if !first {
        write_token(out, b",");
    }
}

/// Appends the marks `%` and `#` of a statement.
pub fn write_marks(out: &mut Printer, percent: bool, hash: bool)
    ensures { Adds (marks_text percent hash) out.old out.new }
{
    if percent {
        write_token(out, b"%");
    }
    if hash {
        write_token(out, b"#");
    }
}
