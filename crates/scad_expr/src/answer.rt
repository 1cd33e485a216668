//! What a frame does with a value.

ghost use Rattle.scad_value.specs.View.{datum_of};
ghost use Rattle.scad_machine.specs.Machine.{held, state_of};
ghost use Rattle.scad_machine.specs.OpenFrames.{left};
ghost use Rattle.scad_stack.specs.Stack.{Leads, Below_by, onto, rest, made_in};

use scad_machine::{EvalFault, Machine};
use scad_operations::{binary_at, operate};
use scad_stack::{
    Focus, Frame, Stack, at_work, bind_next, further, gathered, next_argument, next_parameter,
    round,
};
use scad_value::Value;

/// A frame goes on with a value. It stands in the loop of turns, so that no value is moved between the two.
#[inline(always)]
#[tactic(auto, using(scad_stack::proofs::StackTurns::nodes), unfolding(scad_stack::specs::Stack::onto))]
pub(crate) fn given<'p>(
    frame: Frame<'p>,
    v: Value,
    stack: &mut Stack<'p>,
    m: &mut Machine<'p>,
) -> Result<Focus<'p>, EvalFault>
    ensures goes { Leads (onto frame.entry (rest stack.old) (held m.old) (made_in stack.old) (datum_of v) (state_of m.old))
        result stack.new m.new }
    ensures less { Below_by 5 result stack.old m.old stack.new m.new }
{
    match frame {
        Frame::Operand(at, op, a) => at_work(binary_at(stack.alloc(), at, op, &a, &v, m)),
        Frame::Operation(last) => at_work(operate(stack.alloc(), last, v, m)),
        Frame::Further(next, depth) => further(next, depth, v, stack, m),
        Frame::Arguments(e, so_far, depth) => next_argument(e, so_far, depth, v, stack, m),
        Frame::Default(name, opening) => next_parameter(name, opening, v, stack, m),
        Frame::Leave(back) => leave(back, v, stack, m),
        Frame::Bind(args, within) => bind_next(args, within, v, stack, m),
        Frame::Gathering(next) => gathered(next, v, stack, m),
        Frame::Round(next) => round(next, v, stack, m),
    }
}

/// Frames of names are left.
#[tactic(auto, unfolding(scad_stack::specs::Stack::goes_on))]
fn leave<'p>(
    back: u32,
    v: Value,
    stack: &mut Stack<'p>,
    m: &mut Machine<'p>,
) -> Result<Focus<'p>, EvalFault>
    ensures goes { Leads (rest stack.old (left back (held m.old)) (made_in stack.old) (datum_of v) (state_of m.old))
        result stack.new m.new }
    ensures less { Below_by 4 result stack.old m.old stack.new m.new }
{
    let _alloc = stack.alloc();
    m.leave(back);
    Ok(Focus::Given(v))
}
