//! The parts of the report's lines, each added to the end of a text.
ghost use Rattle.std.specs.Prelude.{◌≡◌, ◌++◌, OnOk, decimal};
ghost use Rattle.std.specs.Fmt.{signed_decimal};
ghost use Rattle.scad_fault.specs.Line.{kind_text, place_text, count_text, layer_text, word_text};

use crate::place::Place;
use std::alloc::AllocError;
use text_scan::push_number;

pub(crate) fn push_word(text: &mut Vec<u8>, word: &[u8]) -> Result<(), AllocError>
    ensures { OnOk result (text.new.items ≡ text.old.items ++ word_text word.now) }
{
    text.push(b' ')?;
    text.extend_from_slice(word)
}

pub(crate) fn push_value(text: &mut Vec<u8>, value: i64) -> Result<(), AllocError>
    ensures { OnOk result (text.new.items ≡ text.old.items ++ word_text (signed_decimal value)) }
{
    text.push(b' ')?;
    push_number(text, value)
}

pub(crate) fn push_whole(text: &mut Vec<u8>, count: u64) -> Result<(), AllocError>
    ensures { OnOk result (text.new.items ≡ text.old.items ++ word_text (decimal count)) }
{
    text.push(b' ')?;
    push_number(text, count)
}

pub(crate) fn push_kind(text: &mut Vec<u8>, number: u8, name: &str) -> Result<(), AllocError>
    ensures { OnOk result (text.new.items ≡ text.old.items ++ kind_text number name.now) }
{
    text.push(b' ')?;
    push_number(text, number)?;
    text.push(b' ')?;
    text.extend_from_slice(name.as_bytes())
}

pub(crate) fn push_place(text: &mut Vec<u8>, at: Place) -> Result<(), AllocError>
    ensures { OnOk result (text.new.items ≡ text.old.items ++ place_text at) }
{
    text.extend_from_slice(b" at ")?;
    push_number(text, at.line)?;
    text.push(b':')?;
    push_number(text, at.col)
}

pub(crate) fn push_count(text: &mut Vec<u8>, count: u64) -> Result<(), AllocError>
    ensures { OnOk result (text.new.items ≡ text.old.items ++ count_text count) }
{
    text.extend_from_slice(b" count ")?;
    push_number(text, count)
}

pub(crate) fn push_layer(text: &mut Vec<u8>, layer: u32) -> Result<(), AllocError>
    ensures { OnOk result (text.new.items ≡ text.old.items ++ layer_text layer) }
{
    text.extend_from_slice(b" layer ")?;
    push_number(text, layer)
}
