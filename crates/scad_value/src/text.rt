//! Values as texts.

ghost use Rattle.std.specs.Prelude.{◌≡◌, true, ◌∷◌, ◌++◌, IfOk, OnOk, OnErr, encode_utf8_all};
ghost use Rattle.scad_base.specs.Characters.{open_square};
ghost use Rattle.scad_num.specs.Text.{number_text};
ghost use Rattle.text_scan.specs.Printing.{Adds};
ghost use Rattle.scad_ast.specs.Text.{boolean_text, separator};
ghost use Rattle.scad_value.specs.Texts.{quoted_text, range_text, text, elements_text};
ghost use Rattle.scad_value.specs.View.{datum_of, elements};

use crate::printer::Printer;
use crate::value::Value;
use scad_fault::Text;
use scad_num::Num;
use std::alloc::{AllocError, Global};

/// Appends a number.
fn push_number(out: &mut Printer, n: Num)
    ensures { Adds (number_text n) out.old out.new }
{
    out.ascii(n.text().as_slice());
}

fn push_boolean(out: &mut Printer, b: bool)
    ensures { Adds (boolean_text b) out.old out.new }
{
    if b {
        out.ascii(b"true");
    } else {
        out.ascii(b"false");
    }
}

fn push_quoted(out: &mut Printer, chars: &[char])
    ensures { Adds (quoted_text chars.now) out.old out.new }
{
    out.put('"');
    out.chars(chars);
    out.put('"');
}

fn push_range(out: &mut Printer, start: Num, step: Num, end: Num)
    ensures { Adds (range_text start step end) out.old out.new }
{
    out.put('[');
    push_number(out, start);
    out.ascii(b" : ");
    push_number(out, step);
    out.ascii(b" : ");
    push_number(out, end);
    out.put(']');
}

/// Appends what stands before an element.
fn push_separator(out: &mut Printer, first: bool)
    ensures { Adds (separator first) out.old out.new }
{
    if !first {
        out.ascii(b", ");
    }
}

#[cycle(text)]
fn push_value(out: &mut Printer, a: &Value)
    ensures { Adds (text (datum_of a.now)) out.old out.new }
{
    match a {
        Value::Undef => out.ascii(b"undef"),
        Value::Bool(b) => push_boolean(out, *b),
        Value::Number(n) => push_number(out, *n),
        Value::Str(chars) => push_quoted(out, chars.as_slice()),
        Value::List(all) => push_vector(out, all.as_slice()),
        Value::Range(start, step, end) => push_range(out, *start, *step, *end),
    }
}

#[cycle(text)]
fn push_vector(out: &mut Printer, all: &[Value])
    ensures { Adds (open_square ∷ elements_text true (elements all.now)) out.old out.new }
{
    out.put('[');
    let mut first = true;
    'elements: for v in all {
        push_separator(out, first);
        push_value(out, v);
        first = false;
    }
    out.put(']');
}

/// The code points that are printed for the value, a string between quotes.
fn printed(alloc: Global, a: &Value) -> Result<Vec<char>, AllocError>
    ensures { IfOk result (λ chars. chars.items ≡ text (datum_of a.now)) }
{
    let mut out = Printer::new(alloc);
    push_value(&mut out, a);
    out.finish()
}

/// Appends the code points that are printed for the value, a string between quotes. They are made apart
/// first, so `out` stays as it is where there is no memory.
pub fn push_text(out: &mut Vec<char>, a: &Value) -> Result<(), AllocError>
    ensures ok { OnOk result (out.new.items ≡ out.old.items ++ text (datum_of a.now)) }
    ensures err { OnErr result (out.new.items ≡ out.old.items) }
{
    let chars = printed(*out.allocator(), a)?;
    out.extend_from_slice(chars.as_slice())
}

/// Characters as UTF-8.
pub fn encoded(alloc: Global, chars: &[char]) -> Result<Text, AllocError>
    ensures { IfOk result (λ t. t ≡ encode_utf8_all chars.now) }
{
    let mut text = String::new(alloc);
    'chars: for c in chars {
        text.push(*c)?;
    }
    Ok(Text::from_vec(text.into_bytes()))
}

/// The printed value as UTF-8, a string between quotes.
pub fn text_of(alloc: Global, a: &Value) -> Result<Text, AllocError>
    ensures { IfOk result (λ t. t ≡ encode_utf8_all (text (datum_of a.now))) }
{
    let chars = printed(alloc, a)?;
    encoded(alloc, chars.as_slice())
}
