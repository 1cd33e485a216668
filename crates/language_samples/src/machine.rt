//! A machine at the start of a program, and the variables of the program's scope.

ghost use Rattle.std.specs.Prelude.{◌≤◌};
ghost use Rattle.scad_expr.specs.State.{step_limit};

use scad_ast::{Item, Scope};
use scad_bindings::bindings;
use scad_expr::{DEPTH_LIMIT, EvalFault, Machine, eval};
use scad_fault::{Budget, BudgetKind, Text};
use scad_num::Num;
use scad_scope::Frames;
use scad_value::{Value, copy};
use std::alloc::{AllocError, Global};

/// The `$` names at the start of a program.
fn dollars<'p>(alloc: Global) -> Result<Frames<'p>, AllocError> {
    let mut along = Frames::new(alloc);
    along.push(None, None, None)?;
    along.set(b"$fn", Value::Number(Num::within(0)))?;
    along.set(b"$fa", Value::Number(Num::within(12_000_000)))?;
    along.set(b"$fs", Value::Number(Num::within(2_000_000)))?;
    along.set(b"$children", Value::Number(Num::within(0)))?;
    along.set(b"$t", Value::Number(Num::within(0)))?;
    along.set(b"$preview", Value::Bool(false))?;
    Ok(along)
}

/// A machine over these frames, whose names are sought from the one of a number. It may take so many steps.
pub(crate) fn over_frames<'p>(
    alloc: Global,
    frames: Frames<'p>,
    here: u32,
    steps: u32,
) -> Result<Machine<'p>, AllocError>
    requires { steps ≤ step_limit }
{
    Ok(Machine {
        frames,
        along: dollars(alloc)?,
        here,
        steps_left: steps,
        depth_left: DEPTH_LIMIT - 1,
        leaves: 0,
        triangles: 0,
        profiles: Vec::new(alloc),
        echoes: Vec::new(alloc),
    })
}

/// A machine whose frames are those of a program's start: what stands outside, and the program's scope. It may take so many steps.
pub(crate) fn start<'p>(
    alloc: Global,
    scope: &'p Scope,
    steps: u32,
) -> Result<Machine<'p>, AllocError>
    requires { steps ≤ step_limit }
{
    let mut frames = Frames::new(alloc);
    let outside = frames.push(None, None, None)?;
    frames.set(b"PI", Value::Number(Num::within(3_141_593)))?;
    let here = frames.push(Some(outside), Some(scope), None)?;
    over_frames(alloc, frames, here, steps)
}

/// The step of an assignment, its value, and the name set.
fn assign<'p>(
    alloc: Global,
    name: &Text,
    item: &'p Item,
    m: &mut Machine<'p>,
) -> Result<Value, EvalFault> {
    let Item::Assign(_, e, at) = item else {
        return Ok(Value::Undef);
    };
    if m.steps_left == 0 {
        return Err(EvalFault::Over(Budget::placed(BudgetKind::Steps, *at)));
    }
    m.steps_left -= 1;
    let value = eval(alloc, e, m)?;
    let kept = copy(alloc, &value)?;
    if name.as_slice().starts_with(b"$") {
        m.along.set(name.as_slice(), kept)?;
    } else {
        m.frames.set(name.as_slice(), kept)?;
    }
    Ok(value)
}

/// The value of the last variable of a scope.
pub(crate) fn last_value<'p>(
    alloc: Global,
    scope: &'p Scope,
    m: &mut Machine<'p>,
) -> Result<Value, EvalFault> {
    let mut last = Value::Undef;
    let all = bindings(alloc, scope)?;
    'variables: for b in all.as_slice() {
        if b.item < scope.len() {
            last = assign(alloc, &b.name, &scope[b.item], m)?;
        }
    }
    Ok(last)
}
