//! Parts of a vector that is being made: what `each` puts there, and the values that they are in the end.

ghost use Rattle.std.specs.Prelude.{◌≡◌, ◌++◌, ◌∷◌, [], IfOk, OnOk};
ghost use Rattle.std.specs.List.{flat_map};
ghost use Rattle.scad_value.specs.Datum.{range};
ghost use Rattle.scad_value.specs.View.{datum_of, data_in};
ghost use Rattle.scad_operations.specs.Parts.{part_data, parts_in, MakeAlike, MakeAlikeThen};
ghost use Rattle.scad_operations.specs.Runs.{items};

use crate::part::Part;
use crate::sequence::{items_of, next_number};
use scad_machine::STEP_LIMIT;
use scad_num::Num;
use scad_value::Value;
use std::alloc::{AllocError, Global};

/// A value behind others. Where there is no memory it is let go by one call, since its type is a parameter.
#[inline(always)]
pub fn append<T: Drop>(all: &mut Vec<T>, value: T) -> Result<(), AllocError>
    ensures { OnOk result (all.new.items ≡ all.old.items ++ value ∷ []) }
{
    all.reserve(1)?;
    all.push_reserved(value);
    Ok(())
}

/// Values behind other parts.
fn add_ones(out: &mut Vec<Part>, all: Vec<Value>) -> Result<(), AllocError>
    ensures { OnOk result (parts_in out.new ≡ parts_in out.old ++ data_in all) }
{
    'values: for value in all {
        append(out, Part::One(value))?;
    }
    Ok(())
}

/// What `each` puts in place of a value, behind other parts.
#[tactic(auto, using(crate::proofs::Parts::pushed))]
fn add_each(alloc: Global, out: &mut Vec<Part>, value: &Value) -> Result<(), AllocError>
    ensures { OnOk result (parts_in out.new ≡ parts_in out.old ++ items (datum_of value.now)) }
{
    match value {
        Value::Range(start, step, end) => append(out, Part::Run(*start, *step, *end)),
        value => {
            let all = items_of(alloc, value)?;
            add_ones(out, all)
        }
    }
}

/// What `each` puts in place of a part, behind other parts: a number stands for itself.
#[tactic(auto, using(crate::proofs::Parts::pushed))]
fn add_part(alloc: Global, out: &mut Vec<Part>, part: Part) -> Result<(), AllocError>
    ensures { OnOk result (parts_in out.new ≡ parts_in out.old ++ flat_map items (part_data part)) }
{
    match part {
        Part::One(value) => add_each(alloc, out, &value),
        Part::Run(start, step, end) => append(out, Part::Run(start, step, end)),
    }
}

/// What `each` puts in place of parts, behind those so far.
pub fn add_parts(
    alloc: Global,
    before: Vec<Part>,
    found: Vec<Part>,
) -> Result<Vec<Part>, AllocError>
    ensures { IfOk result (λ all. parts_in all ≡ parts_in before ++ flat_map items (parts_in found)) }
{
    let mut out = before;
    'parts: for part in found {
        add_part(alloc, &mut out, part)?;
    }
    Ok(out)
}

/// The numbers of a range behind other values; those past the limit of steps are left out, since no vector
/// of so many values is made.
fn add_run(out: &mut Vec<Value>, start: Num, step: Num, end: Num) -> Result<(), AllocError>
    ensures { OnOk result (MakeAlikeThen (data_in out.new) (data_in out.old ++ items (range start step end))) }
{
    let mut next = Some(start);
    'numbers: while let Some((n, rest)) = next_number(next, step, end) {
        if out.len() > STEP_LIMIT as usize {
            return Ok(());
        }
        out.push(Value::Number(n))?;
        next = rest;
    }
    Ok(())
}

/// The values of a part behind other values.
fn add_values(out: &mut Vec<Value>, part: Part) -> Result<(), AllocError>
    ensures { OnOk result (MakeAlikeThen (data_in out.new) (data_in out.old ++ part_data part)) }
{
    match part {
        Part::One(value) => {
            out.push(value)?;
            Ok(())
        }
        Part::Run(start, step, end) => add_run(out, start, step, end),
    }
}

/// The values that parts are, or so many of them that a vector of them is made alike.
pub(crate) fn values_of(alloc: Global, found: Vec<Part>) -> Result<Vec<Value>, AllocError>
    ensures { IfOk result (λ all. MakeAlike (data_in all) (parts_in found)) }
{
    let mut out = Vec::with_capacity(alloc, found.len())?;
    'parts: for part in found {
        add_values(&mut out, part)?;
    }
    Ok(out)
}
