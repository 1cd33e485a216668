//! `for`, `intersection_for` and `let`.

ghost use Rattle.std.specs.Prelude.{◌≡◌, ◌<◌, ◌+◌, ◌∷◌, drop, length};
ghost use Rattle.scad_ast.specs.Scope.{items};
ghost use Rattle.scad_ast.specs.Tree.{argument};
ghost use Rattle.scad_ast.specs.View.{arguments, expression_of};
ghost use Rattle.scad_value.specs.View.{datum_of};
ghost use Rattle.scad_tree.specs.Solid.{Solid};
ghost use Rattle.scad_expr.specs.Machine.{held, env_in, along_in, state_of};
ghost use Rattle.scad_expr.specs.State.{Outcome};
ghost use Rattle.scad_members.specs.Frames.{below_of};
ghost use Rattle.scad_members.specs.Meaning.{for_variables, let_in, looped, turns};
ghost use Rattle.scad_expr.specs.Runs.{left_in};
ghost use Rattle.scad_members.specs.Stack.{Goes, made_in, onward, onward_listed};

use crate::frames::open_names;
use crate::scope_members::combined;
use crate::stack::Stack;
use crate::variable::Variable;
use crate::work::{Focus, Frame};
use scad_ast::Arg;
use scad_expr::{EvalFault, Machine, eval, judge_named, judge_variables};
use scad_leaves::{Call, Operation};
use scad_operations::{Remainder, next_value, run_over};
use scad_tree::Tree;
use scad_value::Value;

/// `for` and `intersection_for`.
#[tactic(auto, using(crate::proofs::Onward::nodes), unfolding(crate::specs::Meaning::looped, crate::specs::Stack::onto, crate::specs::Stack::goes_on))]
pub fn looped<'p>(
    operation: Operation,
    call: Call<'p>,
    stack: &mut Stack<'p>,
    m: &mut Machine<'p>,
) -> Result<Focus<'p>, EvalFault>
    ensures { (o : Outcome Solid) → o ≡ onward (looped (below_of (held m.old)) operation
        call.entry.at call.entry.name.now stack.old.stands (env_in (held m.old)) (along_in (held m.old))
        (arguments call.entry.args.now.items) (items call.entry.all.now.items) (state_of m.old))
        stack.old m.old → Goes o result stack.new m.new }
{
    judge_variables(stack.alloc, call.at, call.name, call.args)?;
    let outer = stack.exchange(Vec::new(stack.alloc));
    stack.push(Frame::Combine(operation, call.at, outer))?;
    Ok(Focus::Variables(call, 0))
}

/// `let`.
#[tactic(auto, using(crate::proofs::Levels::expressions, crate::proofs::Onward::nodes), unfolding(crate::specs::Meaning::let_in, crate::specs::Stack::onto))]
pub fn let_in<'p>(
    call: Call<'p>,
    stack: &mut Stack<'p>,
    m: &mut Machine<'p>,
) -> Result<Focus<'p>, EvalFault>
    ensures { (o : Outcome Solid) → o ≡ onward (let_in (below_of (held m.old)) call.entry.at stack.old.stands
        (env_in (held m.old)) (along_in (held m.old)) (arguments call.entry.args.now.items) (items
        call.entry.all.now.items) (state_of m.old)) stack.old m.old → Goes o result stack.new m.new }
{
    judge_named(stack.alloc, call.at, b"let", call.args)?;
    let back = open_names(stack.alloc, call.args, m)?;
    stack.push(Frame::Leave(back))?;
    combined(Operation::Unite, call.at, call.all, stack, m)
}

/// The variables of a `for` from that of a number on. In a turn of all variables the children are run as one scope, and
/// their tree is a member.
pub fn variables<'p>(
    call: Call<'p>,
    next: usize,
    stack: &mut Stack<'p>,
    m: &mut Machine<'p>,
) -> Result<Focus<'p>, EvalFault>
    ensures { Goes (onward_listed (for_variables (below_of (held m.old)) call.entry.at stack.old.stands
        (arguments (drop next call.entry.args.now.items)) (items call.entry.all.now.items) (env_in
        (held m.old)) (along_in (held m.old)) (made_in stack.old) (state_of m.old)) stack.old m.old)
        result stack.new m.new }
{
    if next >= call.args.len() {
        stack.push(Frame::Member(false))?;
        return combined(Operation::Unite, call.at, call.all, stack, m);
    }
    variable(call, next, &call.args[next], stack, m)
}

/// The variable that an argument names, which is outside of those behind it: what it runs over is evaluated.
fn variable<'p>(
    call: Call<'p>,
    at: usize,
    first: &'p Arg,
    stack: &mut Stack<'p>,
    m: &mut Machine<'p>,
) -> Result<Focus<'p>, EvalFault>
    requires { at < length call.args.now.items }
    ensures { (o : Outcome Solid) → o ≡ onward_listed (for_variables (below_of (held m.old))
        call.entry.at stack.old.stands (argument first.now.name (expression_of first.now.value) (arguments
        (drop (at + 1) call.entry.args.now.items))) (items call.entry.all.now.items) (env_in (held
        m.old)) (along_in (held m.old)) (made_in stack.old) (state_of m.old)) stack.old m.old → Goes
        o result stack.new m.new }
{
    let next = at + 1;
    match &first.name {
        Some(name) => {
            let name = name.as_slice();
            let over = eval(stack.alloc, &first.value, m)?;
            let left = run_over(stack.alloc, &over)?;
            Ok(Focus::Turns(Variable { call, name, next }, left))
        }
        None => Ok(Focus::Variables(call, next)),
    }
}

/// The turns of a variable that are left.
#[tactic(auto, using(crate::proofs::Onward::turned), unfolding(crate::specs::Stack::goes_on))]
pub fn turns<'p>(
    variable: Variable<'p>,
    more: Remainder,
    stack: &mut Stack<'p>,
    m: &mut Machine<'p>,
) -> Result<Focus<'p>, EvalFault>
    ensures { Goes (onward_listed (turns (below_of (held m.old)) variable.entry.call.at
        variable.entry.name.now (for_variables (below_of (held m.old)) variable.entry.call.at stack.old.stands
        (arguments (drop variable.entry.next variable.entry.call.args.now.items)) (items
        variable.entry.call.all.now.items)) (env_in (held m.old)) (along_in (held m.old)) (left_in
        more) (made_in stack.old) (state_of m.old)) stack.old m.old) result stack.new m.new }
{
    let mut left = more;
    match next_value(stack.alloc, &mut left)? {
        Some(value) => turn(variable, value, left, stack, m),
        None => Ok(Focus::Given(Tree::empty())),
    }
}

/// A turn of a variable: a step at the `for`, and then the variables behind it, with the name set in a frame of its
/// own.
#[tactic(auto, using(crate::proofs::Onward::nodes))]
fn turn<'p>(
    variable: Variable<'p>,
    value: Value,
    more: Remainder,
    stack: &mut Stack<'p>,
    m: &mut Machine<'p>,
) -> Result<Focus<'p>, EvalFault>
    ensures { (o : Outcome Solid) → o ≡ onward_listed (turns (below_of (held m.old))
        variable.entry.call.at variable.entry.name.now (for_variables (below_of (held m.old))
        variable.entry.call.at stack.old.stands (arguments (drop variable.entry.next
        variable.entry.call.args.now.items)) (items variable.entry.call.all.now.items)) (env_in
        (held m.old)) (along_in (held m.old)) (datum_of value ∷ left_in more) (made_in stack.old)
        (state_of m.old)) stack.old m.old → Goes o result stack.new m.new }
{
    stack.push(Frame::Then(Focus::Turns(variable, more)))?;
    m.step(variable.call.at)?;
    let back = m.open_with(variable.name, value)?;
    stack.push(Frame::Leave(back))?;
    Ok(Focus::Variables(variable.call, variable.next))
}
