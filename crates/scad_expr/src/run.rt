//! Turns of the machine until nothing is left to do.

ghost use Rattle.std.specs.Prelude.{◌≡◌, OnOk};
ghost use Rattle.scad_ast.specs.View.{expression_of};
ghost use Rattle.scad_value.specs.View.{datum_of};
ghost use Rattle.scad_machine.specs.Answers.{Does};
ghost use Rattle.scad_machine.specs.Machine.{held, env_in, along_in, state_of};
ghost use Rattle.scad_stack.specs.Meaning.{value};
ghost use Rattle.scad_stack.specs.Stack.{rest, made_in, goes_on, size};
ghost use Rattle.scad_expr.specs.Turns.{Ending, Less, IsMore, StaysLess, Done};

use crate::answer::given;
use crate::nodes::part;
use scad_ast::Expr;
use scad_machine::{EvalFault, Machine};
use scad_stack::{Focus, Stack, element};
use scad_value::Value;
use std::alloc::Global;

/// What comes next: more work, or the value in the end.
#[derive(Drop)]
pub(crate) enum Next<'p> {
    More(Focus<'p>),
    End(Value),
}

/// There is more where something is at work.
#[inline(always)]
fn more<'p>(focus: Result<Focus<'p>, EvalFault>) -> Result<Next<'p>, EvalFault>
    ensures goes { IsMore focus.entry result }
    ensures less { StaysLess focus.entry result }
{
    match focus {
        Ok(next) => Ok(Next::More(next)),
        Err(why) => Err(why),
    }
}

/// One turn.
#[inline(always)]
#[tactic(auto, unfolding(scad_stack::specs::Stack::goes_on))]
fn turn<'p>(
    focus: Focus<'p>,
    stack: &mut Stack<'p>,
    m: &mut Machine<'p>,
) -> Result<Next<'p>, EvalFault>
    ensures goes { Ending (goes_on focus.entry (rest stack.old) (held m.old) (made_in stack.old) (state_of m.old)) result
        (rest stack.new) (held m.new) (made_in stack.new) (state_of m.new) }
    ensures less { Less (size focus.entry stack.old m.old) result stack.new m.new }
{
    match focus {
        Focus::Part(e, depth) => more(part(e, depth, stack, m)),
        Focus::Element(e, depth) => more(element(e, depth, stack, m)),
        Focus::Given(value) => match stack.pop() {
            Some(frame) => more(given(frame, value, stack, m)),
            None => Ok(Next::End(value)),
        },
    }
}

/// Turns until there is a value.
fn turns<'p>(
    first: Focus<'p>,
    stack: &mut Stack<'p>,
    m: &mut Machine<'p>,
) -> Result<Value, EvalFault>
    ensures goes { Done (goes_on first.entry (rest stack.old) (held m.old) (made_in stack.old) (state_of m.old)) result
        (held m.new) (state_of m.new) }
{
    let mut focus = first;
    'turns: loop {
        match turn(focus, stack, m)? {
            Next::More(next) => focus = next,
            Next::End(value) => return Ok(value),
        }
    }
}

/// The value of an expression, with so many levels of depth left.
#[tactic(auto, using(scad_stack::proofs::StackTurns::ends), unfolding(scad_stack::specs::Stack::goes_on))]
pub(crate) fn eval_at<'p>(
    alloc: Global,
    e: &'p Expr,
    depth: u32,
    m: &mut Machine<'p>,
) -> Result<Value, EvalFault>
    ensures does { Does datum_of (value depth (env_in (held m.old)) (along_in (held m.old))
        (expression_of e.now) (state_of m.old)) result (state_of m.new) }
    ensures kept { OnOk result (held m.new ≡ held m.old) }
{
    let mut stack = Stack::new(alloc);
    turns(Focus::Part(e, depth), &mut stack, m)
}
