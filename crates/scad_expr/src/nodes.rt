//! Expressions that begin.

ghost use Rattle.std.specs.Prelude.{◌≡◌, ◌+◌, ◌≤◌, ◌*◌, IfOk};
ghost use Rattle.scad_ast.specs.Tree.{name, vector, index, member, call, let_in};
ghost use Rattle.scad_ast.specs.View.{expression_of, arguments};
ghost use Rattle.scad_ast.specs.View.{elements as tree_elements};
ghost use Rattle.scad_value.specs.Datum.{string};
ghost use Rattle.scad_machine.specs.Machine.{held, env_in, along_in};
ghost use Rattle.scad_stack.specs.Meaning.{node, value, meaning};
ghost use Rattle.scad_stack.specs.Stack.{Leads, Below_by, followed, written_node, height, size};
ghost use Rattle.scad_machine.specs.Answers.{Does};
ghost use Rattle.scad_machine.specs.State.{State, gives};
ghost use Rattle.scad_value.specs.View.{datum_of};

use scad_ast::{Arg, Elem, Expr, Node};
use scad_fault::{Budget, BudgetKind, Chars, Place};
use scad_machine::{EvalFault, Machine};
use scad_operations::{Operation, in_memory, judge_named, lone_name, member_in};
use scad_stack::{
    Focus, Frame, Further, Gathering, Inside, Name, Right, Stack, Within, Written, at_work,
    bind_more, call_of_name, first_argument, more_elements, pass_name,
};
use scad_value::Value;
use std::alloc::Global;

/// An expression that begins, with so many levels of depth left.
#[inline(always)]
#[tactic(auto, using(scad_stack::proofs::StackTurns::depths), unfolding(scad_stack::specs::Meaning::value_layer, scad_machine::specs::State::over))]
pub(crate) fn part<'p>(
    e: &'p Expr,
    depth: u32,
    stack: &mut Stack<'p>,
    m: &mut Machine<'p>,
) -> Result<Focus<'p>, EvalFault>
    ensures goes { Leads (followed (value depth (env_in (held m.old)) (along_in (held m.old)) (expression_of e.now))
        stack.old m.old) result stack.new m.new }
    ensures less { IfOk result (λ f. size f stack.new m.new + 1 ≤ 2 * height stack.old + 16 * m.old.steps_left) }
{
    if depth == 0 {
        return Err(EvalFault::Over(Budget::placed(BudgetKind::Depth, e.at)));
    }
    m.step(e.at)?;
    node(e, depth - 1, stack, m)
}

/// One arm for each kind of expression.
#[inline(always)]
#[tactic(auto, using(scad_stack::proofs::Views::views, scad_stack::proofs::StackTurns::nodes), unfolding(scad_stack::specs::Meaning::node, scad_stack::specs::Pieces::range_end, scad_stack::specs::Pieces::stepped_end, scad_stack::specs::Pieces::step_and_end, scad_stack::specs::Pieces::side, scad_stack::specs::Stack::onto, scad_stack::specs::Stack::goes_further, scad_stack::specs::Stack::gathers, scad_operations::specs::Operation::operates, scad_stack::specs::Stack::goes_on))]
fn node<'p>(
    e: &'p Expr,
    depth: u32,
    stack: &mut Stack<'p>,
    m: &mut Machine<'p>,
) -> Result<Focus<'p>, EvalFault>
    ensures goes { Leads (followed (node (meaning depth) (env_in (held m.old)) (along_in (held m.old))
        (expression_of e.now)) stack.old m.old) result stack.new m.new }
    ensures less { Below_by 9 result stack.old m.old stack.new m.new }
{
    match &e.node {
        Node::Undef => Ok(Focus::Given(Value::Undef)),
        Node::Bool(b) => Ok(Focus::Given(Value::Bool(*b))),
        Node::Number(n) => Ok(Focus::Given(Value::Number(*n))),
        Node::Str(chars) => at_work(string_of(stack.alloc(), chars)),
        Node::Name(word) => at_work(m.variable(stack.alloc(), word.as_slice())),
        Node::List(all) => vector_node(e.at, all, depth, stack, m),
        Node::Range(start, None, end) => {
            stack.wait(Frame::Further(Further::RangeEnd(end), depth), start, depth)
        }
        Node::Range(start, Some(step), end) => {
            let next = Further::StepAndEnd(e.at, step, end);
            stack.wait(Frame::Further(next, depth), start, depth)
        }
        Node::Unary(op, a) => {
            let last = Operation::Unary(e.at, *op);
            stack.wait(Frame::Operation(last), a, depth)
        }
        Node::Binary(op, a, b) => {
            let right = Right {
                at: e.at,
                op: *op,
                b,
            };
            stack.wait(Frame::Further(Further::Right(right), depth), a, depth)
        }
        Node::Choose(test, a, b) => {
            stack.wait(Frame::Further(Further::Sides(a, b), depth), test, depth)
        }
        Node::Index(a, i) => index_node(e.at, a, i, depth, stack, m),
        Node::Member(a, word) => member_node(e.at, a, word.as_slice(), depth, stack, m),
        Node::Call(word, args) => {
            let written = Written {
                at: e.at,
                word: word.as_slice(),
                args,
            };
            call_node(e, written, depth, stack, m)
        }
        Node::Let(args, body) => let_node(e.at, args, body, depth, stack, m),
        Node::Assert(_, _) => first_argument(e, depth, stack, m),
        Node::Echo(_, _) => first_argument(e, depth, stack, m),
    }
}

/// A string.
fn string_of(alloc: Global, chars: &Chars) -> Result<Value, EvalFault>
    ensures { (s : State) → Does datum_of (gives (string chars.now) s) result s }
{
    let copy = Chars::of(alloc, chars.as_slice())?;
    in_memory(Value::string(alloc, copy))
}

/// The vector of these elements.
#[tactic(auto, using(scad_stack::proofs::StackTurns::nodes), unfolding(scad_stack::specs::Meaning::node, scad_stack::specs::Stack::onto, scad_stack::specs::Stack::goes_further, scad_stack::specs::Stack::gathers, scad_operations::specs::Operation::operates, scad_stack::specs::Stack::goes_on))]
fn vector_node<'p>(
    at: Place,
    all: &'p [Elem],
    depth: u32,
    stack: &mut Stack<'p>,
    m: &mut Machine<'p>,
) -> Result<Focus<'p>, EvalFault>
    ensures goes { Leads (followed (node (meaning depth) (env_in (held m.old)) (along_in (held m.old))
        (vector at (tree_elements all.now))) stack.old m.old) result stack.new m.new }
    ensures less { Below_by 9 result stack.old m.old stack.new m.new }
{
    let outer = stack.set_aside();
    stack.push(Frame::Gathering(Gathering::Vector(at, outer)))?;
    more_elements(all, depth, stack, m)
}

/// A value that is indexed, and its index.
#[tactic(auto, using(scad_stack::proofs::StackTurns::nodes), unfolding(scad_stack::specs::Meaning::node, scad_stack::specs::Stack::onto, scad_stack::specs::Stack::goes_further, scad_stack::specs::Stack::gathers, scad_operations::specs::Operation::operates, scad_stack::specs::Pieces::index_of))]
fn index_node<'p>(
    at: Place,
    a: &'p Expr,
    i: &'p Expr,
    depth: u32,
    stack: &mut Stack<'p>,
    m: &mut Machine<'p>,
) -> Result<Focus<'p>, EvalFault>
    ensures goes { Leads (followed (node (meaning depth) (env_in (held m.old)) (along_in (held m.old))
        (index at (expression_of a.now) (expression_of i.now))) stack.old m.old) result stack.new m.new }
    ensures less { Below_by 9 result stack.old m.old stack.new m.new }
{
    match &a.node {
        Node::Name(word) => {
            let name = Name {
                at: a.at,
                word: word.as_slice(),
            };
            index_of_name(at, name, i, depth, stack, m)
        }
        _ => stack.wait(Frame::Further(Further::IndexOf(i), depth), a, depth),
    }
}

/// `name[i]`, where the variable's value isn't copied.
#[tactic(auto, using(scad_stack::proofs::StackTurns::nodes), unfolding(scad_stack::specs::Meaning::node, scad_stack::specs::Stack::onto, scad_stack::specs::Stack::goes_further, scad_stack::specs::Stack::gathers, scad_operations::specs::Operation::operates))]
fn index_of_name<'p>(
    _at: Place,
    of: Name<'p>,
    i: &'p Expr,
    depth: u32,
    stack: &mut Stack<'p>,
    m: &mut Machine<'p>,
) -> Result<Focus<'p>, EvalFault>
    ensures goes { Leads (followed (node (meaning depth) (env_in (held m.old)) (along_in (held m.old))
        (index _at (name of.entry.at of.entry.word.now) (expression_of i.now))) stack.old m.old) result stack.new m.new }
    ensures less { Below_by 9 result stack.old m.old stack.new m.new }
{
    pass_name(of.at, of.word, depth, m)?;
    stack.wait(Frame::Operation(Operation::IndexedName(of.word)), i, depth)
}

/// A member of a value; that of a variable is read where it stands.
#[tactic(auto, using(scad_stack::proofs::StackTurns::nodes), unfolding(scad_stack::specs::Meaning::node, scad_stack::specs::Stack::onto, scad_stack::specs::Stack::goes_further, scad_stack::specs::Stack::gathers, scad_operations::specs::Operation::operates, scad_stack::specs::Stack::goes_on))]
fn member_node<'p>(
    at: Place,
    a: &'p Expr,
    word: &'p [u8],
    depth: u32,
    stack: &mut Stack<'p>,
    m: &mut Machine<'p>,
) -> Result<Focus<'p>, EvalFault>
    ensures goes { Leads (followed (node (meaning depth) (env_in (held m.old)) (along_in (held m.old))
        (member at (expression_of a.now) word.now)) stack.old m.old) result stack.new m.new }
    ensures less { Below_by 9 result stack.old m.old stack.new m.new }
{
    let _place = at;
    match &a.node {
        Node::Name(name) => {
            pass_name(a.at, name.as_slice(), depth, m)?;
            at_work(in_memory(member_in(stack.alloc(), m.seek(name.as_slice()), word)))
        }
        _ => stack.wait(Frame::Operation(Operation::Member(word)), a, depth),
    }
}

/// A call.
#[tactic(auto, using(scad_stack::proofs::StackTurns::calls), unfolding(scad_stack::specs::Meaning::node, scad_stack::specs::Stack::supplied, scad_stack::specs::Stack::served))]
fn call_node<'p>(
    e: &'p Expr,
    written: Written<'p>,
    depth: u32,
    stack: &mut Stack<'p>,
    m: &mut Machine<'p>,
) -> Result<Focus<'p>, EvalFault>
    requires { call written.at written.word.now (arguments written.args.now) ≡ expression_of e.now }
    ensures goes { Leads (followed (written_node written.entry depth (held m.old)) stack.old m.old)
        result stack.new m.new }
    ensures less { Below_by 9 result stack.old m.old stack.new m.new }
{
    match lone_name(written.args) {
        Some((at, word)) => {
            pass_name(at, word, depth, m)?;
            call_of_name(written, word, depth, stack, m)
        }
        None => first_argument(e, depth, stack, m),
    }
}

/// `let (names) body`
#[tactic(auto, using(scad_stack::proofs::StackTurns::names), unfolding(scad_stack::specs::Meaning::node))]
fn let_node<'p>(
    at: Place,
    args: &'p [Arg],
    body: &'p Expr,
    depth: u32,
    stack: &mut Stack<'p>,
    m: &mut Machine<'p>,
) -> Result<Focus<'p>, EvalFault>
    ensures goes { Leads (followed (node (meaning depth) (env_in (held m.old)) (along_in (held m.old))
        (let_in at (arguments args.now) (expression_of body.now))) stack.old m.old) result stack.new m.new }
    ensures less { Below_by 9 result stack.old m.old stack.new m.new }
{
    judge_named(stack.alloc(), at, b"let", args)?;
    let back = m.open()?;
    let within = Within {
        inside: Inside::Value(body),
        back,
        depth,
    };
    bind_more(within, args, stack, m)
}
