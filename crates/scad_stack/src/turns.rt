//! Turns of a `for` with variables in a vector.

ghost use Rattle.std.specs.Prelude.{◌∷◌};
ghost use Rattle.scad_ast.specs.View.{arguments, element_of};
ghost use Rattle.scad_value.specs.View.{datum_of};
ghost use Rattle.scad_machine.specs.Machine.{held, env_in, along_in};
ghost use Rattle.scad_machine.specs.State.{and_then};
ghost use Rattle.scad_stack.specs.Meaning.{for_variables, meaning};
ghost use Rattle.scad_operations.specs.Runs.{left_in};
ghost use Rattle.scad_stack.specs.Stack.{Leads, LeadsOn, Below_by, Adds_by, added, followed_list, turns_of, rest, made_in};

use crate::frame::{Focus, Frame, Round, Turning, Variable};
use crate::name_bindings::named;
use crate::stack::Stack;
use scad_ast::{Arg, Elem};
use scad_fault::Place;
use scad_machine::{EvalFault, Machine};
use scad_operations::{Remainder, next_value};
use scad_value::Value;

/// The variables of a `for` that follow, and the element inside them.
#[tactic(auto, using(crate::proofs::StackTurns::variables), unfolding(crate::specs::Stack::onto, crate::specs::Stack::goes_round, crate::specs::Stack::goes_on))]
pub(crate) fn variables<'p>(
    at: Place,
    args: &'p [Arg],
    body: &'p Elem,
    depth: u32,
    stack: &mut Stack<'p>,
) -> Result<Focus<'p>, EvalFault>
    ensures goes { LeadsOn (λ h s. and_then (for_variables (meaning depth) at (arguments args.now) (element_of body.now)
        (env_in h) (along_in h) (made_in stack.old) s) (added (rest stack.old) h)) result stack.new }
    ensures less { Adds_by 3 result stack.old stack.new }
{
    match named(args) {
        Some(n) => {
            let variable = Variable {
                at,
                name: n.name,
                more: n.more,
                body,
                depth,
            };
            let left = Remainder::Values(Vec::new(stack.alloc()), 0);
            let back = 0;
            let turning = Turning {
                variable,
                left,
                back,
            };
            let turning = Box::new(stack.alloc(), turning)?;
            stack.wait(Frame::Round(Round::Over(turning)), n.value, depth)
        }
        None => Ok(Focus::Element(body, depth)),
    }
}

/// The next turn of a variable, or none.
#[tactic(auto, using(crate::proofs::StackTurns::turnings), unfolding(crate::specs::Stack::goes_on))]
pub(crate) fn turn<'p>(
    turning: Box<Turning<'p>>,
    stack: &mut Stack<'p>,
    m: &mut Machine<'p>,
) -> Result<Focus<'p>, EvalFault>
    ensures goes { Leads (followed_list (turns_of turning.entry.value.variable (held m.old) (left_in turning.entry.value.left)
        (made_in stack.old)) stack.old m.old) result stack.new m.new }
    ensures less { Below_by 4 result stack.old m.old stack.new m.new }
{
    let mut turning = turning;
    match next_value(stack.alloc(), &mut turning.left)? {
        Some(value) => turn_on(turning, value, stack, m),
        None => Ok(Focus::Given(Value::Undef)),
    }
}

/// A turn of a variable with one value.
#[tactic(auto, using(crate::proofs::StackTurns::turnings), unfolding(crate::specs::Stack::onto, crate::specs::Stack::goes_round, crate::specs::Meaning::turns))]
fn turn_on<'p>(
    turning: Box<Turning<'p>>,
    value: Value,
    stack: &mut Stack<'p>,
    m: &mut Machine<'p>,
) -> Result<Focus<'p>, EvalFault>
    ensures goes { Leads (followed_list (turns_of turning.entry.value.variable (held m.old) (datum_of value
        ∷ left_in turning.entry.value.left) (made_in stack.old)) stack.old m.old) result stack.new m.new }
    ensures less { Below_by 4 result stack.old m.old stack.new m.new }
{
    let mut turning = turning;
    let variable = turning.variable;
    turning.back = m.here;
    // It is on the stack before a step may fail, so nothing has to let it go then.
    stack.push(Frame::Round(Round::Turns(turning)))?;
    m.step(variable.at)?;
    let _back = m.open_with(variable.name, value)?;
    variables(
        variable.at,
        variable.more,
        variable.body,
        variable.depth,
        stack,
    )
}
