//! The parameters of a call that take their defaults, and the function's expression once all are set.

ghost use Rattle.std.specs.Prelude.{◌≡◌, ◌+◌, ◌*◌, map, drop, IfOk, OnOk, MatchOption};
ghost use Rattle.scad_ast.specs.Scope.{parameter};
ghost use Rattle.scad_ast.specs.View.{expression_of};
ghost use Rattle.scad_value.specs.View.{datum_of};
ghost use Rattle.scad_machine.specs.Answers.{Does, nothing, done_at};
ghost use Rattle.scad_machine.specs.Machine.{Held, held, env_in, along_in, state_of};
ghost use Rattle.scad_stack.specs.Meaning.{Below, value};
ghost use Rattle.scad_machine.specs.OpenFrames.{set_in_last};
ghost use Rattle.scad_stack.specs.Stack.{Whole, Goes, Leads, Below_by, fills, filling, entered, rest, height, made_in, rank};
ghost use Rattle.scad_machine.specs.State.{State, Outcome, Action, and_then};

use crate::frame::{Focus, Frame, Opening};
use crate::stack::Stack;
use scad_ast::{Expr, Param};
use scad_machine::{EvalFault, Machine};
use scad_value::Value;

/// A parameter with its default, and the number of the parameter behind it.
#[derive(Clone, Copy)]
struct Wanted<'p> {
    name: &'p [u8],
    value: &'p Expr,
    next: usize,
}

/// The first parameter from a number on that has a default; those before it are `undef`.
#[tactic(auto, using(crate::proofs::StackBegins::parameters))]
fn next_default<'p>(
    params: &[&'p Param],
    from: usize,
    m: &mut Machine<'p>,
) -> Result<Option<Wanted<'p>>, EvalFault>
    ensures does { Does nothing (done_at (state_of m.old)) result (state_of m.new) }
    ensures same { OnOk result (m.new.steps_left ≡ m.old.steps_left) }
    ensures found { IfOk result (λ r. (below : Below) (k : Held → Action Whole) (s : State) → MatchOption r
        (fills below (map (λ p. parameter p.now) (drop from params.now)) k (held m.old) s ≡ k (held m.new) s)
        (λ w. fills below (map (λ p. parameter p.now) (drop from params.now)) k (held m.old) s
        ≡ and_then (below.value (env_in (held m.new)) (along_in (held m.new)) (expression_of w.value.now) s)
        (λ d. fills below (map (λ p. parameter p.now) (drop w.next params.now)) k
        (set_in_last w.name.now d (held m.new))))) }
{
    let mut i = from;
    'missing: while i < params.len() {
        let param = params[i];
        i += 1;
        match &param.default {
            Some(e) => {
                return Ok(Some(Wanted {
                    name: param.name.as_slice(),
                    value: e,
                    next: i,
                }));
            }
            None => m.set(param.name.as_slice(), Value::Undef)?,
        }
    }
    Ok(None)
}

/// The next parameter that takes its default, or the function's expression.
#[tactic(auto, using(crate::proofs::StackTurns::nodes), unfolding(crate::specs::Stack::onto))]
pub(crate) fn fill<'p>(
    opening: Opening<'p>,
    stack: &mut Stack<'p>,
    m: &mut Machine<'p>,
) -> Result<Focus<'p>, EvalFault>
    ensures goes { Leads (filling opening.entry (rest stack.old) (made_in stack.old) (held m.old) (state_of m.old))
        result stack.new m.new }
    ensures less { Below_by 2 result stack.old m.old stack.new m.new }
{
    match next_default(&opening.missing, opening.next, m) {
        Ok(Some(wanted)) => wait(wanted, opening, stack),
        Ok(None) => enter(opening, stack, m),
        Err(why) => Err(why),
    }
}

/// The default of a parameter begins, and those behind it wait.
#[tactic(auto, unfolding(crate::specs::Stack::onto))]
fn wait<'p>(
    wanted: Wanted<'p>,
    opening: Opening<'p>,
    stack: &mut Stack<'p>,
) -> Result<Focus<'p>, EvalFault>
    ensures goes { (h : Held) (s : State) (o : Outcome Whole) → o ≡ and_then (value opening.entry.depth (env_in h)
        (along_in h) (expression_of wanted.entry.value.now) s) (λ d. filling (record opening.entry { next = wanted.entry.next })
        (rest stack.old) (made_in stack.old) (set_in_last wanted.entry.name.now d h))
        → Goes o result (rest stack.new) h (made_in stack.new) s }
    ensures less { IfOk result (λ f. rank f + 2 * height stack.new ≡ 2 * height stack.old + 2) }
{
    let depth = opening.depth;
    let mut later = opening;
    later.next = wanted.next;
    let later = Box::new(stack.alloc(), later)?;
    stack.wait(Frame::Default(wanted.name, later), wanted.value, depth)
}

/// The function's expression.
#[tactic(auto, using(crate::proofs::StackTurns::nodes), unfolding(crate::specs::Stack::onto, crate::specs::Stack::entered, scad_machine::specs::OpenFrames::left))]
fn enter<'p>(
    opening: Opening<'p>,
    stack: &mut Stack<'p>,
    m: &mut Machine<'p>,
) -> Result<Focus<'p>, EvalFault>
    ensures goes { Leads (entered opening.entry (rest stack.old) (made_in stack.old) (held m.old) (state_of m.old))
        result stack.new m.new }
    ensures less { Below_by 2 result stack.old m.old stack.new m.new }
{
    let _home = m.go(opening.inner);
    stack.wait(Frame::Leave(opening.back), opening.body, opening.depth)
}

/// A parameter has its default.
#[tactic(auto, using(crate::proofs::StackTurns::nodes), unfolding(crate::specs::Stack::onto))]
pub fn next_parameter<'p>(
    name: &'p [u8],
    opening: Box<Opening<'p>>,
    v: Value,
    stack: &mut Stack<'p>,
    m: &mut Machine<'p>,
) -> Result<Focus<'p>, EvalFault>
    ensures goes { Leads (filling opening.entry.value (rest stack.old) (made_in stack.old) (set_in_last name.now (datum_of v)
        (held m.old)) (state_of m.old)) result stack.new m.new }
    ensures less { Below_by 2 result stack.old m.old stack.new m.new }
{
    m.set(name, v)?;
    fill(Box::into_inner(opening), stack, m)
}
