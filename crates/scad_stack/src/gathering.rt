//! What is done with the elements of a vector that were added, and with the value of one.

ghost use Rattle.std.specs.Prelude.{◌≡◌, ◌≤◌, List, ◌++◌, option_map};
ghost use Rattle.std.specs.List.{flat_map};
ghost use Rattle.scad_ast.specs.View.{element_of};
ghost use Rattle.scad_value.specs.Datum.{Datum};
ghost use Rattle.scad_value.specs.View.{datum_of};
ghost use Rattle.scad_machine.specs.Machine.{Held, held, env_in, along_in, state_of};
ghost use Rattle.scad_machine.specs.State.{State, and_then};
ghost use Rattle.scad_stack.specs.Meaning.{meaning};
ghost use Rattle.scad_operations.specs.Parts.{parts_in};
ghost use Rattle.scad_stack.specs.Pieces.{chosen_element};
ghost use Rattle.scad_operations.specs.Runs.{items};
ghost use Rattle.scad_stack.specs.Stack.{Rest, Leads, LeadsOn, Below_by, Adds_by, added, gathers, goes_on, rank, rest, made_in};

use crate::elements::more_elements;
use crate::frame::{Focus, Gathering, at_work};
use crate::stack::Stack;
use scad_ast::Elem;
use scad_machine::{EvalFault, Machine};
use scad_operations::{Part, add_parts, vector};
use scad_value::{Value, truth};

/// Elements of a vector, once a part of one has its value, or one was added.
#[inline(always)]
#[tactic(auto, using(crate::proofs::StackTurns::nodes), unfolding(crate::specs::Stack::gathers))]
pub fn gathered<'p>(
    next: Gathering<'p>,
    v: Value,
    stack: &mut Stack<'p>,
    m: &mut Machine<'p>,
) -> Result<Focus<'p>, EvalFault>
    ensures goes { Leads (gathers next.entry (rest stack.old) (held m.old) (made_in stack.old) (datum_of v) (state_of m.old))
        result stack.new m.new }
    ensures less { Below_by 5 result stack.old m.old stack.new m.new }
{
    match next {
        Gathering::Vector(at, outer) => {
            let all = stack.exchange(outer);
            at_work(vector(stack.alloc(), at, all, m))
        }
        Gathering::Elements(more, depth) => more_elements(more, depth, stack, m),
        Gathering::Item => stack.add(v),
        Gathering::Each(outer) => spread(outer, stack),
        Gathering::If(e, other, depth) => Ok(chosen(&v, e, other, depth)),
    }
}

/// What an `each` gives in place of what was added.
#[tactic(auto, using(crate::proofs::StackTurns::nodes), unfolding(crate::specs::Stack::goes_on))]
fn spread<'p>(outer: Vec<Part>, stack: &mut Stack<'p>) -> Result<Focus<'p>, EvalFault>
    ensures goes { LeadsOn (λ h. added (rest stack.old) h (parts_in outer ++ flat_map items (made_in stack.old)))
        result stack.new }
    ensures less { Adds_by 4 result stack.old stack.new }
{
    let found = stack.set_aside();
    let all = add_parts(stack.alloc(), outer, found)?;
    let _none = stack.exchange(all);
    Ok(Focus::Given(Value::Undef))
}

/// The element of an `if` whose test has its value, or that of its `else`.
#[tactic(auto, unfolding(crate::specs::Pieces::chosen_element, crate::specs::Stack::goes_on))]
fn chosen<'p>(v: &Value, e: &'p Elem, other: Option<&'p Elem>, depth: u32) -> Focus<'p>
    ensures goes { (k : Rest) (h : Held) (made : List Datum) (s : State) → goes_on result k h made s
        ≡ and_then (chosen_element (meaning depth) (env_in h) (along_in h) (datum_of v.now) (element_of e.now)
        (option_map (λ b. element_of b.now) other.entry) made s) (added k h) }
    ensures rank { rank result ≤ 4 }
{
    if truth(v) {
        Focus::Element(e, depth)
    } else {
        match other {
            Some(other) => Focus::Element(other, depth),
            None => Focus::Given(Value::Undef),
        }
    }
}
