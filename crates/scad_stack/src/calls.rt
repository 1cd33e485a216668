//! Arguments one by one, and what is done once each has its value.

ghost use Rattle.std.specs.Prelude.{◌≡◌, ◌<◌, ◌≤◌, ◌++◌, ◌∷◌, [], length, OnOk};
ghost use Rattle.scad_ast.specs.View.{arguments, expression_of};
ghost use Rattle.scad_value.specs.View.{datum_of, data_in};
ghost use Rattle.scad_scope.specs.FrameStore.{envs};
ghost use Rattle.scad_machine.specs.Answers.{Does, nothing};
ghost use Rattle.scad_machine.specs.Machine.{held, env_in, along_in, state_of};
ghost use Rattle.scad_machine.specs.EchoLines.{echo_line};
ghost use Rattle.scad_machine.specs.State.{State, say};
ghost use Rattle.scad_stack.specs.Meaning.{asserted, called_own, meaning};
ghost use Rattle.scad_stack.specs.Stack.{Leads, Below_by, BeginsAfter, BeginsLess, followed, purposed, supplied, served, called_as};
ghost use Rattle.scad_machine.specs.Variables.{variable};
ghost use Rattle.scad_machine.specs.View.{found_at};

use crate::defaults::fill;
use crate::frame::{Focus, Frame, Opening, Written, at_work};
use crate::purpose::{Purpose, purpose_of};
use crate::stack::Stack;
use scad_ast::{Arg, Expr};
use scad_fault::Place;
use scad_machine::{CallFrames, Callee, DefinedAt, EvalFault, Invocation, Machine};
use scad_operations::{asserted, builtin_at, builtin_on};
use scad_value::Value;
use std::alloc::Global;

/// The first argument of a call, an `assert` or an `echo`, or what is done without one.
pub fn first_argument<'p>(
    e: &'p Expr,
    depth: u32,
    stack: &mut Stack<'p>,
    m: &mut Machine<'p>,
) -> Result<Focus<'p>, EvalFault>
    ensures goes { Leads (followed (supplied (meaning depth) (expression_of e.now) (env_in (held m.old))
        (along_in (held m.old)) []) stack.old m.old) result stack.new m.new }
    ensures less { Below_by 4 result stack.old m.old stack.new m.new }
{
    arguments(e, Vec::new(stack.alloc()), depth, stack, m)
}

/// The next argument, or what is done with the values of all.
#[tactic(auto, using(crate::proofs::StackTurns::calls), unfolding(crate::specs::Stack::onto))]
fn arguments<'p>(
    e: &'p Expr,
    so_far: Vec<Value>,
    depth: u32,
    stack: &mut Stack<'p>,
    m: &mut Machine<'p>,
) -> Result<Focus<'p>, EvalFault>
    ensures goes { Leads (followed (supplied (meaning depth) (expression_of e.now) (env_in (held m.old))
        (along_in (held m.old)) (data_in so_far)) stack.old m.old) result stack.new m.new }
    ensures less { Below_by 4 result stack.old m.old stack.new m.new }
{
    let Some(purpose) = purpose_of(e) else {
        // No other expression has a frame for arguments.
        return Err(EvalFault::Memory);
    };
    let args = purpose.args();
    let i = so_far.len();
    if i < args.len() {
        stack.wait(Frame::Arguments(e, so_far, depth), &args[i].value, depth)
    } else {
        serve(purpose, so_far, depth, stack, m)
    }
}

/// An argument has its value.
#[tactic(auto, using(crate::proofs::StackTurns::calls, scad_operations::proofs::RunsLeft::kinds))]
pub fn next_argument<'p>(
    e: &'p Expr,
    so_far: Vec<Value>,
    depth: u32,
    v: Value,
    stack: &mut Stack<'p>,
    m: &mut Machine<'p>,
) -> Result<Focus<'p>, EvalFault>
    ensures goes { Leads (followed (supplied (meaning depth) (expression_of e.now) (env_in (held m.old))
        (along_in (held m.old)) (data_in so_far ++ datum_of v ∷ [])) stack.old m.old) result stack.new m.new }
    ensures less { Below_by 4 result stack.old m.old stack.new m.new }
{
    let mut all = so_far;
    all.push(v)?;
    arguments(e, all, depth, stack, m)
}

/// What is done with the values of arguments.
#[tactic(auto, using(crate::proofs::StackTurns::nodes), unfolding(crate::specs::Stack::served, crate::specs::Stack::purposed))]
fn serve<'p>(
    purpose: Purpose<'p>,
    so_far: Vec<Value>,
    depth: u32,
    stack: &mut Stack<'p>,
    m: &mut Machine<'p>,
) -> Result<Focus<'p>, EvalFault>
    ensures goes { Leads (followed (served (meaning depth) (purposed purpose.entry) (env_in (held m.old))
        (along_in (held m.old)) (data_in so_far)) stack.old m.old) result stack.new m.new }
    ensures less { Below_by 4 result stack.old m.old stack.new m.new }
{
    match purpose {
        Purpose::Call(written) => called(written, so_far, depth, stack, m),
        Purpose::Assert(at, args, body) => {
            begin(assert_all(stack.alloc(), at, args, so_far), body, depth)
        }
        Purpose::Echo(at, args, body) => {
            begin(echo_all(stack.alloc(), at, args, so_far, m), body, depth)
        }
    }
}

/// The judgement of an `assert` whose arguments have their values.
fn assert_all(alloc: Global, at: Place, args: &[Arg], found: Vec<Value>) -> Result<(), EvalFault>
    ensures { (s : State) → Does nothing (asserted at (arguments args.now) (data_in found) s) result s }
{
    asserted(alloc, at, args, &found)
}

/// The line of an `echo` whose arguments have their values.
fn echo_all<'p>(
    alloc: Global,
    at: Place,
    args: &[Arg],
    found: Vec<Value>,
    m: &mut Machine<'p>,
) -> Result<(), EvalFault>
    ensures does { Does nothing (say at (echo_line (arguments args.now) (data_in found)) (state_of m.old))
        result (state_of m.new) }
    ensures kept { held m.new ≡ held m.old }
    ensures less { OnOk result (m.new.steps_left ≤ m.old.steps_left) }
{
    m.echo(alloc, at, args, &found)
}

/// An expression that begins once what stands before it is done.
#[tactic(auto, unfolding(crate::specs::Stack::goes_on))]
fn begin<'p>(done: Result<(), EvalFault>, e: &'p Expr, depth: u32) -> Result<Focus<'p>, EvalFault>
    ensures goes { BeginsAfter done (expression_of e.now) depth result }
    ensures less { BeginsLess done result }
{
    match done {
        Ok(()) => Ok(Focus::Part(e, depth)),
        Err(why) => Err(why),
    }
}

/// A call with the values of its arguments: the program's functions go before those of the language.
#[tactic(auto, using(crate::proofs::StackTurns::calls, scad_operations::proofs::Lists::called_elements))]
fn called<'p>(
    written: Written<'p>,
    found: Vec<Value>,
    depth: u32,
    stack: &mut Stack<'p>,
    m: &mut Machine<'p>,
) -> Result<Focus<'p>, EvalFault>
    ensures goes { Leads (followed (called_as written.entry depth (held m.old) (data_in found)) stack.old m.old)
        result stack.new m.new }
    ensures less { Below_by 4 result stack.old m.old stack.new m.new }
{
    match m.function(written.word) {
        Ok(Some(own)) => call_own(own, written.args, found, depth, stack, m),
        Ok(None) => {
            let Written { at, word, .. } = written;
            at_work(builtin_at(stack.alloc(), at, word, &found, m))
        }
        Err(_) => Err(EvalFault::Memory),
    }
}

/// A call whose one argument is a variable, which a function of the language reads where it stands.
#[tactic(auto, using(crate::proofs::StackTurns::calls), unfolding(crate::specs::Stack::goes_on))]
pub fn call_of_name<'p>(
    written: Written<'p>,
    of: &'p [u8],
    depth: u32,
    stack: &mut Stack<'p>,
    m: &mut Machine<'p>,
) -> Result<Focus<'p>, EvalFault>
    ensures goes { Leads (followed (called_as written.entry depth (held m.old) (variable of.now (env_in (held m.old))
        (along_in (held m.old)) ∷ [])) stack.old m.old) result stack.new m.new }
    ensures less { Below_by 4 result stack.old m.old stack.new m.new }
{
    match m.function(written.word) {
        Ok(Some(own)) => own_of_name(own, written.args, of, depth, stack, m),
        Ok(None) => at_work(builtin_on(stack.alloc(), written.at, written.word, of, m)),
        Err(_) => Err(EvalFault::Memory),
    }
}

/// A call of a function of the program whose one argument is a variable.
#[tactic(auto, using(crate::proofs::StackTurns::calls))]
fn own_of_name<'p>(
    own: DefinedAt<'p>,
    args: &'p [Arg],
    of: &'p [u8],
    depth: u32,
    stack: &mut Stack<'p>,
    m: &mut Machine<'p>,
) -> Result<Focus<'p>, EvalFault>
    requires { own.home < length (held m.old).frames }
    ensures goes { Leads (followed (called_own (meaning depth) (along_in (held m.old))
        (found_at (envs (held m.old).frames) own.entry) (arguments args.now) (variable of.now (env_in (held m.old))
        (along_in (held m.old)) ∷ [])) stack.old m.old) result stack.new m.new }
    ensures less { Below_by 4 result stack.old m.old stack.new m.new }
{
    let value = m.variable(stack.alloc(), of)?;
    let mut found = Vec::new(stack.alloc());
    found.push(value)?;
    call_own(own, args, found, depth, stack, m)
}

/// A call of a function of the program.
#[tactic(auto, using(crate::proofs::StackTurns::calls))]
fn call_own<'p>(
    own: DefinedAt<'p>,
    args: &'p [Arg],
    found: Vec<Value>,
    depth: u32,
    stack: &mut Stack<'p>,
    m: &mut Machine<'p>,
) -> Result<Focus<'p>, EvalFault>
    requires { own.home < length (held m.old).frames }
    ensures goes { Leads (followed (called_own (meaning depth) (along_in (held m.old))
        (found_at (envs (held m.old).frames) own.entry) (arguments args.now) (data_in found)) stack.old m.old)
        result stack.new m.new }
    ensures less { Below_by 4 result stack.old m.old stack.new m.new }
{
    let callee = Callee {
        params: own.function.params,
        home: own.home,
    };
    let call = Invocation {
        callee,
        args,
        kept: None,
    };
    let CallFrames {
        missing,
        inner,
        back,
    } = m.call(stack.alloc(), call, found)?;
    let opening = Opening {
        missing,
        next: 0,
        body: own.function.body,
        inner,
        back,
        depth,
    };
    fill(opening, stack, m)
}
