//! What `for` and `each` run over: elements, characters and numbers.

ghost use Rattle.std.specs.Prelude.{◌≡◌, ◌++◌, ◌∷◌, [], false, Some, IfOk, OnOk, MatchOption, map};
ghost use Rattle.scad_value.specs.Datum.{number, string};
ghost use Rattle.scad_value.specs.View.{datum_of, data_of, data_in};
ghost use Rattle.scad_operations.specs.Runs.{is_past, numbers_left, items};

use scad_fault::Chars;
use scad_num::Num;
use scad_value::{Value, copy};
use std::alloc::{AllocError, Global};

/// The most millionths that a number has, in either direction.
const MOST: i64 = scad_num::MOST as i64;

/// Whether a number is past the end of a range.
fn is_past(n: Num, step: Num, end: Num) -> bool
    ensures { result ≡ is_past n step end }
{
    if step.millionths() < 0 {
        n.millionths() < end.millionths()
    } else {
        end.millionths() < n.millionths()
    }
}

/// What comes behind a number of a range that isn't past its end.
fn after(n: Num, step: Num, end: Num) -> Option<Num>
    requires { is_past n step end ≡ false }
    ensures { numbers_left (Some n) step end ≡ number n ∷ numbers_left result step end }
{
    let _last = end.millionths();
    if step.millionths() == 0 {
        return None;
    }
    let next = n.millionths() + step.millionths();
    if next < -MOST || next > MOST {
        return None;
    }
    Some(Num::within(next))
}

/// The next number of a range, and what comes behind it.
#[tactic(auto, using(crate::proofs::RunsLeft::past_end))]
pub fn next_number(next: Option<Num>, step: Num, end: Num) -> Option<(Num, Option<Num>)>
    ensures { MatchOption result (numbers_left next step end ≡ [])
        (λ p. numbers_left next step end ≡ number p.0 ∷ numbers_left p.1 step end) }
{
    match next {
        None => None,
        Some(n) => {
            if is_past(n, step, end) {
                None
            } else {
                Some((n, after(n, step, end)))
            }
        }
    }
}

/// The numbers of a range behind other values.
fn add_numbers(out: &mut Vec<Value>, start: Num, step: Num, end: Num) -> Result<(), AllocError>
    ensures { OnOk result (data_in out.new ≡ data_in out.old ++ numbers_left (Some start) step end) }
{
    let mut next = Some(start);
    'numbers: while let Some((n, rest)) = next_number(next, step, end) {
        out.push(Value::Number(n))?;
        next = rest;
    }
    Ok(())
}

/// Characters as strings, behind other values.
fn add_characters(alloc: Global, out: &mut Vec<Value>, chars: &[char]) -> Result<(), AllocError>
    ensures { OnOk result (data_in out.new ≡ data_in out.old ++ map (λ c. string (c ∷ [])) chars.now) }
{
    'characters: for c in chars {
        out.push(Value::string(alloc, Chars::of(alloc, &[*c])?)?)?;
    }
    Ok(())
}

/// The values of a vector behind other values.
fn add_values(alloc: Global, out: &mut Vec<Value>, all: &[Value]) -> Result<(), AllocError>
    ensures { OnOk result (data_in out.new ≡ data_in out.old ++ data_of all.now) }
{
    'values: for value in all {
        out.push(copy(alloc, value)?)?;
    }
    Ok(())
}

/// What `for` and `each` run over, behind other values.
#[tactic(auto, using(crate::proofs::RunsLeft::kinds), unfolding(crate::specs::Runs::items))]
fn add(alloc: Global, out: &mut Vec<Value>, value: &Value) -> Result<(), AllocError>
    ensures { OnOk result (data_in out.new ≡ data_in out.old ++ items (datum_of value.now)) }
{
    match value {
        Value::Undef => Ok(()),
        Value::Str(chars) => add_characters(alloc, out, chars.as_slice()),
        Value::List(all) => add_values(alloc, out, all.as_slice()),
        Value::Range(start, step, end) => add_numbers(out, *start, *step, *end),
        Value::Bool(b) => {
            out.push(Value::Bool(*b))?;
            Ok(())
        }
        Value::Number(n) => {
            out.push(Value::Number(*n))?;
            Ok(())
        }
    }
}

/// What `for` runs over.
pub(crate) fn items_of(alloc: Global, value: &Value) -> Result<Vec<Value>, AllocError>
    ensures { IfOk result (λ all. data_in all ≡ items (datum_of value.now)) }
{
    let mut all = Vec::new(alloc);
    add(alloc, &mut all, value)?;
    Ok(all)
}
