//! Elements, characters and parts by their index.

ghost use Rattle.std.specs.Prelude.{◌≡◌, IfOk, IfErr, IsTrue};
ghost use Rattle.scad_value.specs.Index.{character, part, at_place, at_whole, indexed};
ghost use Rattle.scad_value.specs.Memory.{is_list};
ghost use Rattle.scad_value.specs.Products.{nth};
ghost use Rattle.scad_value.specs.View.{datum_of, elements};

use crate::duplicate::copy;
use crate::value::Value;
use scad_fault::Chars;
use scad_num::{Num, ONE};
use std::alloc::{AllocError, Global};

/// The character at a place, as a string.
#[tactic(auto, using(crate::proofs::Access::places))]
fn character(alloc: Global, chars: &[char], n: usize) -> Result<Value, AllocError>
    ensures value { IfOk result (λ v. datum_of v ≡ character chars.now n) }
    ensures memory { IfErr result (λ _. IsTrue (is_list (character chars.now n))) }
{
    if n >= chars.len() {
        return Ok(Value::Undef);
    }
    Value::string(alloc, Chars::of(alloc, &[chars[n]])?)
}

/// Start, step or end.
fn part(start: Num, step: Num, end: Num, n: usize) -> Value
    ensures { datum_of result ≡ part start step end n }
{
    match n {
        0 => Value::Number(start),
        1 => Value::Number(step),
        2 => Value::Number(end),
        _ => Value::Undef,
    }
}

/// A copy of the element at a place.
#[tactic(auto, using(crate::proofs::Access::places))]
fn element(alloc: Global, all: &[Value], n: usize) -> Result<Value, AllocError>
    ensures value { IfOk result (λ v. datum_of v ≡ nth (elements all.now) n) }
    ensures memory { IfErr result (λ _. IsTrue (is_list (nth (elements all.now) n))) }
{
    if n >= all.len() {
        return Ok(Value::Undef);
    }
    copy(alloc, &all[n])
}

#[tactic(auto, using(crate::proofs::Rows::at_vector))]
fn at_place(alloc: Global, a: &Value, n: usize) -> Result<Value, AllocError>
    ensures value { IfOk result (λ v. datum_of v ≡ at_place (datum_of a.now) n) }
    ensures memory { IfErr result (λ _. IsTrue (is_list (at_place (datum_of a.now) n))) }
{
    match a {
        Value::List(all) => element(alloc, all.as_slice(), n),
        Value::Str(chars) => character(alloc, chars.as_slice(), n),
        Value::Range(start, step, end) => Ok(part(*start, *step, *end, n)),
        _ => Ok(Value::Undef),
    }
}

fn at_whole(alloc: Global, a: &Value, n: i64) -> Result<Value, AllocError>
    ensures value { IfOk result (λ v. datum_of v ≡ at_whole (datum_of a.now) n) }
    ensures memory { IfErr result (λ _. IsTrue (is_list (at_whole (datum_of a.now) n))) }
{
    if n < 0 {
        Ok(Value::Undef)
    } else {
        at_place(alloc, a, n as usize)
    }
}

/// `a[i]`. It takes no memory for a number or a boolean.
pub fn index(alloc: Global, a: &Value, i: &Value) -> Result<Value, AllocError>
    ensures value { IfOk result (λ v. datum_of v ≡ indexed (datum_of a.now) (datum_of i.now)) }
    ensures memory { IfErr result (λ _. IsTrue (is_list (indexed (datum_of a.now) (datum_of i.now)))) }
{
    match i {
        Value::Number(z) => at_whole(alloc, a, z.millionths() / ONE),
        _ => Ok(Value::Undef),
    }
}
