//! Expressions that go on with another part of them.

ghost use Rattle.std.specs.Prelude.{◌≡◌, ◌≤◌, List, if◌then◌else◌};
ghost use Rattle.scad_ast.specs.View.{expression_of};
ghost use Rattle.scad_value.specs.Datum.{Datum, boolean};
ghost use Rattle.scad_value.specs.View.{datum_of};
ghost use Rattle.scad_machine.specs.Machine.{Held, held, env_in, along_in};
ghost use Rattle.scad_machine.specs.State.{State, and_then, pure};
ghost use Rattle.scad_stack.specs.Meaning.{meaning, right_side, truth_of};
ghost use Rattle.scad_stack.specs.Pieces.{side};
ghost use Rattle.scad_stack.specs.Stack.{Rest, Leads, LeadsOn, Below_by, Adds_by, followed, goes_further, goes_on, rank, rest, made_in};

use crate::frame::{Focus, Frame, Further, Right};
use crate::stack::Stack;
use scad_ast::{BinOp, Expr};
use scad_machine::{EvalFault, Machine};
use scad_operations::{Bounds, Operation};
use scad_value::{Value, truth};

/// An expression one of whose parts has its value.
#[inline(always)]
#[tactic(auto, using(crate::proofs::StackTurns::nodes), unfolding(crate::specs::Stack::goes_further, crate::specs::Stack::onto, scad_operations::specs::Operation::operates, crate::specs::Pieces::range_end, crate::specs::Pieces::step_and_end, crate::specs::Pieces::stepped_end, crate::specs::Pieces::index_of))]
pub fn further<'p>(
    next: Further<'p>,
    depth: u32,
    v: Value,
    stack: &mut Stack<'p>,
    m: &mut Machine<'p>,
) -> Result<Focus<'p>, EvalFault>
    ensures goes { Leads (followed (goes_further next.entry (meaning depth) (env_in (held m.old)) (along_in (held m.old))
        (datum_of v)) stack.old m.old) result stack.new m.new }
    ensures less { Below_by 4 result stack.old m.old stack.new m.new }
{
    match next {
        Further::RangeEnd(end) => stack.wait(Frame::Operation(Operation::Ends(v)), end, depth),
        Further::StepAndEnd(at, step, end) => {
            let start = Bounds {
                start: v,
                step: Value::Undef,
            };
            let bounds = Box::new(stack.alloc(), start)?;
            let next = Further::SteppedEnd(at, bounds, end);
            stack.wait(Frame::Further(next, depth), step, depth)
        }
        Further::SteppedEnd(at, bounds, end) => {
            let mut bounds = bounds;
            bounds.step = v;
            stack.wait(Frame::Operation(Operation::Stepped(at, bounds)), end, depth)
        }
        Further::Right(right) => right_side(right, depth, v, stack),
        Further::Sides(a, b) => Ok(side(&v, a, b, depth)),
        Further::IndexOf(i) => stack.wait(Frame::Operation(Operation::Indexed(v)), i, depth),
    }
}

/// The right side of an operator whose left operand has its value.
#[tactic(auto, using(crate::proofs::StackTurns::nodes), unfolding(crate::specs::Meaning::right_side, crate::specs::Stack::onto))]
fn right_side<'p>(
    right: Right<'p>,
    depth: u32,
    v: Value,
    stack: &mut Stack<'p>,
) -> Result<Focus<'p>, EvalFault>
    ensures goes { LeadsOn (λ h s. and_then (right_side (meaning depth) (env_in h) (along_in h) right.entry.at
        right.entry.op (datum_of v) (expression_of right.entry.b.now) s) (rest stack.old h (made_in stack.old)))
        result stack.new }
    ensures less { Adds_by 4 result stack.old stack.new }
{
    let Right { at, op, b } = right;
    match op {
        BinOp::Or => unless(truth(&v), true, b, depth, stack),
        BinOp::And => unless(!truth(&v), false, b, depth, stack),
        _ => stack.wait(Frame::Operand(at, op, v), b, depth),
    }
}

/// The truth of the right side of `||` or `&&`, where the left one hasn't decided which it is.
#[tactic(auto, using(crate::proofs::StackTurns::nodes), unfolding(crate::specs::Meaning::truth_of, crate::specs::Stack::onto, crate::specs::Stack::goes_on, scad_operations::specs::Operation::operates))]
fn unless<'p>(
    decided: bool,
    is: bool,
    b: &'p Expr,
    depth: u32,
    stack: &mut Stack<'p>,
) -> Result<Focus<'p>, EvalFault>
    ensures goes { LeadsOn (λ h s. and_then ((if decided then pure (boolean is) else truth_of (meaning depth) (env_in h)
        (along_in h) (expression_of b.now)) s) (rest stack.old h (made_in stack.old))) result stack.new }
    ensures less { Adds_by 4 result stack.old stack.new }
{
    if decided {
        Ok(Focus::Given(Value::Bool(is)))
    } else {
        stack.wait(Frame::Operation(Operation::Truth), b, depth)
    }
}

/// The side of a choice whose test has its value.
#[tactic(auto, unfolding(crate::specs::Pieces::side, crate::specs::Stack::goes_on))]
fn side<'p>(v: &Value, a: &'p Expr, b: &'p Expr, depth: u32) -> Focus<'p>
    ensures goes { (k : Rest) (h : Held) (made : List Datum) (s : State) → goes_on result k h made s
        ≡ and_then (side (meaning depth) (env_in h) (along_in h) (datum_of v.now) (expression_of a.now)
        (expression_of b.now) s) (k h made) }
    ensures rank { rank result ≤ 4 }
{
    if truth(v) {
        Focus::Part(a, depth)
    } else {
        Focus::Part(b, depth)
    }
}
