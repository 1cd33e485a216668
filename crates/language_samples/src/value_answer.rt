//! What the variables of a program give, as one text.

ghost use Rattle.std.specs.Prelude.{◌<◌, length};

use crate::machine::{last_value, start};
use scad_ast::Program;
use scad_expr::{EvalFault, Machine, STEP_LIMIT};
use scad_fault::{Fault, Text};
use scad_lex::lex;
use scad_parse::parse;
use scad_value::{Value, text_of};
use std::alloc::{AllocError, Global};

/// Appends text that is told as UTF-8.
fn push(out: &mut Vec<u8>, text: &Text) -> Result<(), AllocError> {
    out.extend_from_slice(text.as_slice())
}

/// The kind and the place of a fault, and its name.
fn fault(alloc: Global, f: &Fault, out: &mut Vec<u8>) -> Result<(), AllocError> {
    let kind = f.kind as u8;
    let head = format!(in alloc; "fault {kind} {}:{} ", f.at.line, f.at.col)?;
    out.extend_from_slice(head.as_bytes())?;
    push(out, &f.name)
}

/// A value, or why there is none.
pub(crate) fn outcome(
    alloc: Global,
    answer: &Result<Value, EvalFault>,
    steps: u32,
    out: &mut Vec<u8>,
) -> Result<(), AllocError> {
    match answer {
        Ok(value) => {
            push(out, &text_of(alloc, value)?)?;
            let taken = format!(in alloc; " @{steps}")?;
            out.extend_from_slice(taken.as_bytes())
        }
        Err(EvalFault::Fault(f)) => fault(alloc, f, out),
        Err(EvalFault::Over(b)) => {
            let kind = b.kind as u8;
            let text = format!(in alloc; "budget {kind} {}:{}", b.at.line, b.at.col)?;
            out.extend_from_slice(text.as_bytes())
        }
        Err(EvalFault::Memory) => out.extend_from_slice(b"memory"),
    }
}

/// The lines of `echo`, each with `|` behind it.
fn lines(m: &Machine, out: &mut Vec<u8>) -> Result<(), AllocError> {
    'lines: for line in &m.echoes {
        push(out, line)?;
        out.push(b'|')?;
    }
    Ok(())
}

fn evaluated(alloc: Global, program: &Program) -> Result<Vec<u8>, AllocError> {
    let mut out = Vec::new(alloc);
    let mut m = start(alloc, &program.scope, STEP_LIMIT)?;
    let answer = last_value(alloc, &program.scope, &mut m);
    lines(&m, &mut out)?;
    let taken = STEP_LIMIT - m.steps_left;
    outcome(alloc, &answer, taken, &mut out)?;
    Ok(out)
}

/// The lines of `echo`, and the value of the last variable with the steps that were taken, or the fault
/// or the budget with its place.
pub(crate) fn answer(alloc: Global, source: &[u8]) -> Result<Vec<u8>, AllocError>
    requires { length source.now < 10000 }
{
    match lex(alloc, source) {
        Ok(tokens) => match parse(alloc, &tokens) {
            Ok(program) => evaluated(alloc, &program),
            Err(_) => Vec::from_slice(alloc, b"no program"),
        },
        Err(_) => Vec::from_slice(alloc, b"no tokens"),
    }
}
