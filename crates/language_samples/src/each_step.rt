//! Sources of expressions, begun with each limit of steps up to the one at which they end.

ghost use Rattle.std.specs.Prelude.{◌≤◌};
ghost use Rattle.scad_expr.specs.State.{step_limit};

use crate::cases::expect;
use crate::machine::{last_value, start};
use crate::step_limits::STEPS;
use crate::value_answer::outcome;
use scad_ast::Program;
use scad_lex::lex;
use scad_parse::parse;
use std::alloc::{AllocError, Global};

/// What the last variable gives where so many steps may be taken, or the budget and its place; and the steps that were taken.
fn told(alloc: Global, program: &Program, limit: u32) -> Result<Vec<u8>, AllocError>
    requires { limit ≤ step_limit }
{
    let mut out = Vec::new(alloc);
    let mut m = start(alloc, &program.scope, limit)?;
    let answer = last_value(alloc, &program.scope, &mut m);
    let taken = limit.saturating_sub(m.steps_left);
    outcome(alloc, &answer, taken, &mut out)?;
    if answer.is_err() {
        let steps = format!(in alloc; " @{taken}")?;
        out.extend_from_slice(steps.as_bytes())?;
    }
    Ok(out)
}

/// With this limit comes the budget of steps at a place, with so many steps taken.
fn is_passed(alloc: Global, program: &Program, limit: u32, place: &str) -> bool
    requires { limit ≤ step_limit }
{
    match (
        told(alloc, program, limit),
        format!(in alloc; "budget 2 {place}"),
    ) {
        (Ok(given), Ok(wanted)) => given.as_slice() == wanted.as_bytes(),
        _ => false,
    }
}

/// With this limit comes a value.
fn is_enough(alloc: Global, program: &Program, limit: u32, wanted: &str) -> bool
    requires { limit ≤ step_limit }
{
    match told(alloc, program, limit) {
        Ok(given) => given.as_slice() == wanted.as_bytes(),
        Err(_) => false,
    }
}

/// Each limit from 0 on is passed at one of the places, and the next one is enough.
fn are_limits(alloc: Global, program: &Program, places: &str, wanted: &str) -> bool {
    let mut limit: u32 = 0;
    'places: for place in places.split(", ") {
        if limit >= 1000 || !is_passed(alloc, program, limit, place) {
            return false;
        }
        limit += 1;
    }
    limit <= 1000 && is_enough(alloc, program, limit, wanted)
}

/// The source of a row has its places and its value at each limit.
fn gives(alloc: Global, row: &str) -> bool {
    let (source, rest) = row.split_once(" ~ ").unwrap_or((row, ""));
    let (places, wanted) = rest.split_once(" ~ ").unwrap_or((rest, ""));
    let source = source.as_bytes();
    if source.len() >= 10000 {
        return false;
    }
    let Ok(tokens) = lex(alloc, source) else {
        return false;
    };
    match parse(alloc, &tokens) {
        Ok(program) => are_limits(alloc, &program, places, wanted),
        Err(_) => false,
    }
}

#[test]
fn each_limit_of_steps_is_passed_at_its_place(rt: HostRuntime) {
    for row in STEPS.lines() {
        expect(&rt, gives(rt.alloc(), row), row);
    }
}
