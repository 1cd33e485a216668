//! What goes on in a `for`.

ghost use Rattle.scad_value.specs.View.{datum_of};
ghost use Rattle.scad_machine.specs.Machine.{held, state_of};
ghost use Rattle.scad_stack.specs.Stack.{Leads, Below_by, goes_round, rest, made_in};

use crate::frame::{Focus, Round};
use crate::name_bindings::{renew, tested};
use crate::stack::Stack;
use crate::turns::turn;
use scad_machine::{EvalFault, Machine};
use scad_operations::run_over;
use scad_value::Value;

/// A `for`, once a part of it has its value or its element was added.
#[inline(always)]
#[tactic(auto, using(crate::proofs::StackTurns::nodes), unfolding(crate::specs::Stack::goes_round))]
pub fn round<'p>(
    next: Round<'p>,
    v: Value,
    stack: &mut Stack<'p>,
    m: &mut Machine<'p>,
) -> Result<Focus<'p>, EvalFault>
    ensures goes { Leads (goes_round next.entry (rest stack.old) (held m.old) (made_in stack.old) (datum_of v) (state_of m.old))
        result stack.new m.new }
    ensures less { Below_by 5 result stack.old m.old stack.new m.new }
{
    match next {
        Round::Over(turning) => {
            let mut turning = turning;
            turning.left = run_over(stack.alloc(), &v)?;
            turn(turning, stack, m)
        }
        Round::Turns(turning) => {
            m.leave(turning.back);
            turn(turning, stack, m)
        }
        Round::Test(all, back, depth) => tested(all, back, depth, &v, stack, m),
        Round::Body(all, back, depth) => renew(all, back, depth, stack, m),
    }
}
