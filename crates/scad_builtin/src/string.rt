//! `str`, `chr` and `ord`.

ghost use Rattle.std.specs.Prelude.{◌≡◌, ◌++◌, OnOk, IfOk, IsOkUnless};
ghost use Rattle.std.specs.Option.{option_to_list};
ghost use Rattle.scad_value.specs.Datum.{string};
ghost use Rattle.scad_value.specs.View.{datum_of, elements};
ghost use Rattle.scad_builtin.specs.Numbers.{cut_of};
ghost use Rattle.scad_builtin.specs.Strings.{bare_text, joined_texts, character_of, first_code};

use crate::fault::BuiltinFault;
use crate::number::cut;
use scad_fault::Chars;
use scad_num::{Num, ONE};
use scad_value::{Value, push_text};
use std::alloc::Global;

/// Adds a value's text, of a string without quotes.
fn push_bare(value: &Value, onto: &mut Vec<char>) -> Result<(), BuiltinFault>
    ensures ok { OnOk result (onto.new.items ≡ onto.old.items ++ bare_text (datum_of value.now)) }
    ensures err { IsOkUnless result BuiltinFault.Memory }
{
    match value {
        Value::Str(chars) => Ok(onto.extend_from_slice(chars.as_slice())?),
        _ => Ok(push_text(onto, value)?),
    }
}

/// The texts of values, one behind the other, of strings without quotes.
fn joined_texts(alloc: Global, args: &[Value]) -> Result<Vec<char>, BuiltinFault>
    ensures ok { IfOk result (λ chars. chars.items ≡ joined_texts (elements args.now)) }
    ensures err { IsOkUnless result BuiltinFault.Memory }
{
    let mut chars = Vec::new(alloc);
    for value in args {
        push_bare(value, &mut chars)?;
    }
    Ok(chars)
}

pub(crate) fn text(alloc: Global, args: &[Value]) -> Result<Value, BuiltinFault>
    ensures ok { IfOk result (λ v. datum_of v ≡ string (joined_texts (elements args.now))) }
    ensures err { IsOkUnless result BuiltinFault.Memory }
{
    let chars = Chars::from_vec(joined_texts(alloc, args)?);
    Ok(Value::string(alloc, chars)?)
}

/// The character of this number, where it is one above 0.
fn character(code: i64) -> Option<char>
    ensures { option_to_list result ≡ character_of code }
{
    if code <= 0 || code > 0x10_FFFF {
        return None;
    }
    char::from_u32(code as u32)
}

/// The character whose number is the whole part of a number, where it is one above 0.
pub(crate) fn string_of_code(alloc: Global, code: Num) -> Result<Value, BuiltinFault>
    ensures ok { IfOk result (λ v. datum_of v ≡ string (character_of (cut_of code))) }
    ensures err { IsOkUnless result BuiltinFault.Memory }
{
    let chars = match character(cut(code)) {
        Some(c) => Chars::of(alloc, &[c])?,
        None => Chars::empty(alloc),
    };
    Ok(Value::string(alloc, chars)?)
}

/// The number of the first character.
pub(crate) fn first_code(chars: &[char]) -> Value
    ensures { datum_of result ≡ first_code chars.now }
{
    match chars {
        [first, ..] => Value::Number(Num::within(i64::from(u32::from(*first)) * ONE)),
        [] => Value::Undef,
    }
}
