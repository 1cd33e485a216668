//! Names that are bound from left to right in frames of their own, and what stands inside them.

ghost use Rattle.std.specs.Prelude.{◌≡◌, Some, IfSome, IfOk, OnOk, MatchOption};
ghost use Rattle.scad_ast.specs.Tree.{no_arguments, argument};
ghost use Rattle.scad_ast.specs.View.{expression_of, arguments};
ghost use Rattle.scad_value.specs.View.{datum_of};
ghost use Rattle.scad_machine.specs.Machine.{held, state_of};
ghost use Rattle.scad_machine.specs.Answers.{Does, nothing, done_at};
ghost use Rattle.scad_machine.specs.OpenFrames.{left};
ghost use Rattle.scad_stack.specs.Pieces.{named_of};
ghost use Rattle.scad_stack.specs.Stack.{Leads, LeadsOn, Below_by, Adds_by, behind, set_first, inside, binding, looping, renewing, turning, rest, made_in};

use crate::frame::{Focus, Frame, Inside, Loop, Round, Within};
use crate::stack::Stack;
use scad_ast::{Arg, Expr};
use scad_fault::{Budget, BudgetKind};
use scad_machine::{EvalFault, Machine};
use scad_value::{Value, truth};

/// A name with its expression, the arguments from it on, and those behind it.
#[derive(Clone, Copy)]
pub(crate) struct FirstNamed<'p> {
    pub(crate) name: &'p [u8],
    pub(crate) value: &'p Expr,
    pub(crate) from: &'p [Arg],
    pub(crate) more: &'p [Arg],
}

/// The first argument that has a name.
pub(crate) fn named<'p>(args: &'p [Arg]) -> Option<FirstNamed<'p>>
    ensures first { MatchOption result (named_of (arguments args.now) ≡ no_arguments)
        (λ n. named_of (arguments args.now)
        ≡ argument (Some n.name.now) (expression_of n.value.now) (arguments n.more.now)) }
    ensures from { IfSome result (λ n. arguments n.from.now
        ≡ argument (Some n.name.now) (expression_of n.value.now) (arguments n.more.now)) }
{
    let mut rest = args;
    'names: loop {
        let [first, more @ ..] = rest else {
            return None;
        };
        match &first.name {
            Some(name) => {
                return Some(FirstNamed {
                    name: name.as_slice(),
                    value: &first.value,
                    from: rest,
                    more,
                });
            }
            None => rest = more,
        }
    }
}

/// The next name, or what stands inside all of them.
#[tactic(auto, using(crate::proofs::StackTurns::names), unfolding(crate::specs::Stack::onto))]
pub fn bind_more<'p>(
    within: Within<'p>,
    args: &'p [Arg],
    stack: &mut Stack<'p>,
    m: &mut Machine<'p>,
) -> Result<Focus<'p>, EvalFault>
    ensures goes { Leads (binding within.entry (arguments args.now) (rest stack.old) (made_in stack.old) (held m.old)
        (state_of m.old)) result stack.new m.new }
    ensures less { Below_by 5 result stack.old m.old stack.new m.new }
{
    match named(args) {
        Some(n) => {
            let depth = within.depth;
            stack.wait(Frame::Bind(n.from, within), n.value, depth)
        }
        None => enter(within, stack),
    }
}

/// A name has its value.
#[tactic(auto, using(crate::proofs::StackTurns::names), unfolding(crate::specs::Stack::onto))]
pub fn bind_next<'p>(
    args: &'p [Arg],
    within: Within<'p>,
    v: Value,
    stack: &mut Stack<'p>,
    m: &mut Machine<'p>,
) -> Result<Focus<'p>, EvalFault>
    ensures goes { Leads (binding within.entry (behind 1 (arguments args.now)) (rest stack.old) (made_in stack.old)
        (set_first (arguments args.now) (datum_of v) (held m.old)) (state_of m.old)) result stack.new m.new }
    ensures less { Below_by 5 result stack.old m.old stack.new m.new }
{
    let more = set_first(args, v, m)?;
    bind_more(within, more, stack, m)
}

/// The first argument takes the value, where it has a name. Gives those behind it.
#[tactic(auto, unfolding(crate::specs::Stack::set_first, crate::specs::Stack::behind))]
fn set_first<'p>(args: &'p [Arg], v: Value, m: &mut Machine<'p>) -> Result<&'p [Arg], EvalFault>
    ensures does { Does nothing (done_at (state_of m.old)) result (state_of m.new) }
    ensures steps { OnOk result (m.new.steps_left ≡ m.old.steps_left) }
    ensures held { OnOk result (held m.new ≡ set_first (arguments args.now) (datum_of v) (held m.old)) }
    ensures more { IfOk result (λ more. arguments more.now ≡ behind 1 (arguments args.now)) }
{
    let [first, more @ ..] = args else {
        return Ok(args);
    };
    match &first.name {
        Some(name) => m.set(name.as_slice(), v)?,
        None => (),
    }
    Ok(more)
}

/// What stands inside names that are bound.
#[tactic(auto, using(crate::proofs::StackTurns::nodes), unfolding(crate::specs::Stack::inside_of, crate::specs::Stack::onto, crate::specs::Stack::goes_on))]
fn enter<'p>(within: Within<'p>, stack: &mut Stack<'p>) -> Result<Focus<'p>, EvalFault>
    ensures goes { LeadsOn (inside within.entry (rest stack.old) (made_in stack.old)) result stack.new }
    ensures less { Adds_by 5 result stack.old stack.new }
{
    let Within {
        inside,
        back,
        depth,
    } = within;
    match inside {
        Inside::Value(e) => stack.wait(Frame::Leave(back), e, depth),
        Inside::Element(e) => {
            stack.push(Frame::Leave(back))?;
            Ok(Focus::Element(e, depth))
        }
        Inside::Turns(all) => repeat(all, back, depth, stack),
    }
}

/// The next turn of a loop with start, test and step: its test.
#[tactic(auto, using(crate::proofs::StackTurns::loops), unfolding(crate::specs::Stack::onto, crate::specs::Stack::goes_round, scad_machine::specs::State::over))]
fn repeat<'p>(
    all: Box<Loop<'p>>,
    back: u32,
    depth: u32,
    stack: &mut Stack<'p>,
) -> Result<Focus<'p>, EvalFault>
    ensures goes { LeadsOn (looping all.entry.value back depth (rest stack.old) (made_in stack.old)) result stack.new }
    ensures less { Adds_by 5 result stack.old stack.new }
{
    let Loop {
        at,
        test,
        turns,
        ..
    } = *all;
    if turns == 0 {
        return Err(EvalFault::Over(Budget::placed(BudgetKind::Steps, at)));
    }
    let mut left = all;
    left.turns = turns - 1;
    stack.wait(Frame::Round(Round::Test(left, back, depth)), test, depth)
}

/// The test of a loop has its value.
#[tactic(auto, using(crate::proofs::StackTurns::nodes), unfolding(crate::specs::Stack::turned, crate::specs::Stack::onto, crate::specs::Stack::goes_round, crate::specs::Stack::goes_on))]
pub(crate) fn tested<'p>(
    all: Box<Loop<'p>>,
    back: u32,
    depth: u32,
    v: &Value,
    stack: &mut Stack<'p>,
    m: &mut Machine<'p>,
) -> Result<Focus<'p>, EvalFault>
    ensures goes { Leads (turning all.entry.value back depth (rest stack.old) (held m.old) (made_in stack.old) (datum_of v.now)
        (state_of m.old)) result stack.new m.new }
    ensures less { Below_by 5 result stack.old m.old stack.new m.new }
{
    if truth(v) {
        let Loop { at, body, .. } = *all;
        stack.push(Frame::Round(Round::Body(all, back, depth)))?;
        m.step(at)?;
        Ok(Focus::Element(body, depth))
    } else {
        m.leave(back);
        Ok(Focus::Given(Value::Undef))
    }
}

/// The element of a loop was added: the names of the next turn.
#[tactic(auto, using(crate::proofs::StackTurns::nodes), unfolding(crate::specs::Stack::renewed, crate::specs::Stack::inside_of))]
pub(crate) fn renew<'p>(
    all: Box<Loop<'p>>,
    back: u32,
    depth: u32,
    stack: &mut Stack<'p>,
    m: &mut Machine<'p>,
) -> Result<Focus<'p>, EvalFault>
    ensures goes { Leads (renewing all.entry.value back depth (rest stack.old) (made_in stack.old) (held m.old)
        (state_of m.old)) result stack.new m.new }
    ensures less { Below_by 5 result stack.old m.old stack.new m.new }
{
    let steps = all.steps;
    let within = Within {
        inside: Inside::Turns(all),
        back,
        depth,
    };
    bind_more(within, steps, stack, m)
}
