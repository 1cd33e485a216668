//! Elements of a vector that begin, and list comprehensions.

ghost use Rattle.std.specs.Prelude.{◌≡◌, ◌+◌, ◌<◌, ◌^◌, option_map};
ghost use Rattle.scad_ast.specs.Tree.{each, for_each, let_element};
ghost use Rattle.scad_ast.specs.View.{expression_of, arguments, element_of};
ghost use Rattle.scad_ast.specs.View.{elements as tree_elements};
ghost use Rattle.scad_machine.specs.Machine.{held, env_in, along_in, state_of};
ghost use Rattle.scad_stack.specs.Meaning.{element_node, elements, value, meaning};
ghost use Rattle.scad_stack.specs.Pieces.{if_with};
ghost use Rattle.scad_stack.specs.Places.{element_place};
ghost use Rattle.scad_machine.specs.State.{and_then, step};
ghost use Rattle.scad_stack.specs.Stack.{Leads, Below_by, followed_list, loop_of, onto, rest, made_in};

use crate::frame::{Focus, Frame, Gathering, Inside, Loop, Within};
use crate::name_bindings::bind_more;
use crate::stack::Stack;
use crate::turns::variables;
use scad_ast::{Arg, Elem, Expr};
use scad_fault::{Budget, BudgetKind, Place};
use scad_machine::{EvalFault, Machine};
use scad_operations::{judge_named, judge_variables};
use scad_value::Value;

/// The next element, or none.
#[tactic(auto, using(crate::proofs::StackTurns::nodes), unfolding(crate::specs::Meaning::elements, crate::specs::Stack::onto, crate::specs::Stack::gathers, crate::specs::Stack::goes_on))]
pub fn more_elements<'p>(
    all: &'p [Elem],
    depth: u32,
    stack: &mut Stack<'p>,
    m: &mut Machine<'p>,
) -> Result<Focus<'p>, EvalFault>
    ensures goes { Leads (followed_list (elements (meaning depth) (env_in (held m.old)) (along_in (held m.old))
        (tree_elements all.now) (made_in stack.old)) stack.old m.old) result stack.new m.new }
    ensures less { Below_by 5 result stack.old m.old stack.new m.new }
{
    let _steps = m.steps_left;
    match all {
        [first, more @ ..] => {
            stack.push(Frame::Gathering(Gathering::Elements(more, depth)))?;
            Ok(Focus::Element(first, depth))
        }
        [] => Ok(Focus::Given(Value::Undef)),
    }
}

/// An element that begins, with so many levels of depth left.
#[inline(always)]
#[tactic(auto, using(crate::proofs::StackTurns::element_depths), unfolding(scad_machine::specs::State::over))]
pub fn element<'p>(
    e: &'p Elem,
    depth: u32,
    stack: &mut Stack<'p>,
    m: &mut Machine<'p>,
) -> Result<Focus<'p>, EvalFault>
    ensures goes { Leads (followed_list ((meaning depth).element (env_in (held m.old)) (along_in (held m.old))
        (element_of e.now) (made_in stack.old)) stack.old m.old) result stack.new m.new }
    ensures less { Below_by 2 result stack.old m.old stack.new m.new }
{
    if depth == 0 {
        return Err(EvalFault::Over(Budget::placed(BudgetKind::Depth, place_of(e))));
    }
    element_node(e, depth - 1, stack, m)
}

/// One arm for each kind of element.
#[tactic(auto, using(crate::proofs::Views::element_views, crate::proofs::StackTurns::nodes), unfolding(crate::specs::Meaning::element_node, crate::specs::Pieces::if_with, crate::specs::Stack::onto, crate::specs::Stack::gathers))]
fn element_node<'p>(
    e: &'p Elem,
    depth: u32,
    stack: &mut Stack<'p>,
    m: &mut Machine<'p>,
) -> Result<Focus<'p>, EvalFault>
    requires { depth + 1 < 2 ^ 32 }
    ensures goes { Leads (followed_list (element_node (meaning depth) (env_in (held m.old)) (along_in (held m.old))
        (element_of e.now) (made_in stack.old)) stack.old m.old) result stack.new m.new }
    ensures less { Below_by 2 result stack.old m.old stack.new m.new }
{
    match e {
        Elem::Item(e) => stack.wait(Frame::Gathering(Gathering::Item), e, depth + 1),
        Elem::Each(e, at) => each_element(*at, e, depth, stack, m),
        Elem::For(args, e, at) => for_element(*at, args, e, depth, stack, m),
        Elem::Loop(starts, test, steps, e, at) => {
            let all = Loop {
                at: *at,
                test,
                steps,
                body: e,
                turns: 5_000_001,
            };
            loop_element(all, starts, depth, stack, m)
        }
        Elem::Let(args, e, at) => let_element(*at, args, e, depth, stack, m),
        Elem::If(test, e, None, at) => {
            if_node(*at, test, Branches { e, other: None }, depth, stack, m)
        }
        Elem::If(test, e, Some(other), at) => {
            let both = Branches {
                e,
                other: Some(other),
            };
            if_node(*at, test, both, depth, stack, m)
        }
    }
}

/// The element of an `if`, and that of its `else`, where it has one.
#[derive(Clone, Copy)]
struct Branches<'p> {
    e: &'p Elem,
    other: Option<&'p Elem>,
}

/// `if (test) element`, and `else element` where it has one.
fn if_node<'p>(
    at: Place,
    test: &'p Expr,
    both: Branches<'p>,
    depth: u32,
    stack: &mut Stack<'p>,
    m: &mut Machine<'p>,
) -> Result<Focus<'p>, EvalFault>
    ensures goes { Leads (followed_list (element_node (meaning depth) (env_in (held m.old)) (along_in (held m.old))
        (if_with at (expression_of test.now) (element_of both.entry.e.now)
        (option_map (λ b. element_of b.now) both.entry.other)) (made_in stack.old)) stack.old m.old)
        result stack.new m.new }
    ensures less { Below_by 2 result stack.old m.old stack.new m.new }
{
    later(
        at,
        Frame::Gathering(Gathering::If(both.e, both.other, depth)),
        test,
        depth,
        stack,
        m,
    )
}

/// An expression behind a step. The frame is on the stack before the step may fail, so nothing has to let it go then.
#[tactic(auto, using(crate::proofs::StackTurns::nodes), unfolding(crate::specs::Stack::goes_on))]
fn later<'p>(
    at: Place,
    frame: Frame<'p>,
    e: &'p Expr,
    depth: u32,
    stack: &mut Stack<'p>,
    m: &mut Machine<'p>,
) -> Result<Focus<'p>, EvalFault>
    ensures goes { Leads (and_then (and_then (step at (state_of m.old)) (λ _. value depth (env_in (held m.old))
        (along_in (held m.old)) (expression_of e.now))) (onto frame.entry (rest stack.old) (held m.old) (made_in stack.old)))
        result stack.new m.new }
    ensures less { Below_by 2 result stack.old m.old stack.new m.new }
{
    stack.push(frame)?;
    m.step(at)?;
    Ok(Focus::Part(e, depth))
}

/// `each element`
#[tactic(auto, using(crate::proofs::StackTurns::nodes), unfolding(crate::specs::Meaning::element_node, crate::specs::Stack::onto, crate::specs::Stack::gathers, crate::specs::Stack::goes_on))]
fn each_element<'p>(
    at: Place,
    e: &'p Elem,
    depth: u32,
    stack: &mut Stack<'p>,
    m: &mut Machine<'p>,
) -> Result<Focus<'p>, EvalFault>
    ensures goes { Leads (followed_list (element_node (meaning depth) (env_in (held m.old)) (along_in (held m.old))
        (each at (element_of e.now)) (made_in stack.old)) stack.old m.old) result stack.new m.new }
    ensures less { Below_by 2 result stack.old m.old stack.new m.new }
{
    m.step(at)?;
    let outer = stack.set_aside();
    stack.push(Frame::Gathering(Gathering::Each(outer)))?;
    Ok(Focus::Element(e, depth))
}

/// `for (variables) element`
#[tactic(auto, using(crate::proofs::StackTurns::nodes), unfolding(crate::specs::Meaning::element_node))]
fn for_element<'p>(
    at: Place,
    args: &'p [Arg],
    e: &'p Elem,
    depth: u32,
    stack: &mut Stack<'p>,
    m: &mut Machine<'p>,
) -> Result<Focus<'p>, EvalFault>
    ensures goes { Leads (followed_list (element_node (meaning depth) (env_in (held m.old)) (along_in (held m.old))
        (for_each at (arguments args.now) (element_of e.now)) (made_in stack.old)) stack.old m.old) result stack.new m.new }
    ensures less { Below_by 2 result stack.old m.old stack.new m.new }
{
    m.step(at)?;
    judge_variables(stack.alloc(), at, b"for", args)?;
    variables(at, args, e, depth, stack)
}

/// `for (start; test; step) element`
#[tactic(auto, using(crate::proofs::StackTurns::names), unfolding(crate::specs::Meaning::element_node))]
fn loop_element<'p>(
    all: Loop<'p>,
    starts: &'p [Arg],
    depth: u32,
    stack: &mut Stack<'p>,
    m: &mut Machine<'p>,
) -> Result<Focus<'p>, EvalFault>
    ensures goes { Leads (followed_list (loop_of all.entry depth (arguments starts.now) (held m.old) (made_in stack.old))
        stack.old m.old) result stack.new m.new }
    ensures less { Below_by 2 result stack.old m.old stack.new m.new }
{
    m.step(all.at)?;
    judge_named(stack.alloc(), all.at, b"for", starts)?;
    judge_named(stack.alloc(), all.at, b"for", all.steps)?;
    let back = m.open()?;
    let turns = Box::new(stack.alloc(), all)?;
    let within = Within {
        inside: Inside::Turns(turns),
        back,
        depth,
    };
    bind_more(within, starts, stack, m)
}

/// `let (names) element`
#[tactic(auto, using(crate::proofs::StackTurns::names), unfolding(crate::specs::Meaning::element_node))]
fn let_element<'p>(
    at: Place,
    args: &'p [Arg],
    e: &'p Elem,
    depth: u32,
    stack: &mut Stack<'p>,
    m: &mut Machine<'p>,
) -> Result<Focus<'p>, EvalFault>
    ensures goes { Leads (followed_list (element_node (meaning depth) (env_in (held m.old)) (along_in (held m.old))
        (let_element at (arguments args.now) (element_of e.now)) (made_in stack.old)) stack.old m.old)
        result stack.new m.new }
    ensures less { Below_by 2 result stack.old m.old stack.new m.new }
{
    m.step(at)?;
    judge_named(stack.alloc(), at, b"let", args)?;
    let back = m.open()?;
    let within = Within {
        inside: Inside::Element(e),
        back,
        depth,
    };
    bind_more(within, args, stack, m)
}

/// Where an element stands.
#[tactic(auto, using(crate::proofs::Views::places))]
fn place_of(e: &Elem) -> Place
    ensures { result ≡ element_place (element_of e.now) }
{
    match e {
        Elem::Item(e) => e.at,
        Elem::Each(_, at) => *at,
        Elem::For(_, _, at) => *at,
        Elem::Loop(_, _, _, _, at) => *at,
        Elem::Let(_, _, at) => *at,
        Elem::If(_, _, _, at) => *at,
    }
}
