//! The statements of a scope, and the tree of an operation over them.

ghost use Rattle.std.specs.Prelude.{◌≡◌, drop, IfErr};
ghost use Rattle.scad_ast.specs.Scope.{item_of, items};
ghost use Rattle.scad_tree.specs.Solid.{Solid};
ghost use Rattle.scad_machine.specs.declared.fault.EvalFault.TheVariants.{Memory};
ghost use Rattle.scad_expr.specs.Machine.{Held, held, env_in, along_in, state_of};
ghost use Rattle.scad_expr.specs.State.{State, Outcome, and_then};
ghost use Rattle.scad_leaves.specs.Operation.{operated};
ghost use Rattle.scad_leaves.specs.Products.{judged};
ghost use Rattle.scad_leaves.specs.View.{trees_in};
ghost use Rattle.scad_members.specs.Frames.{below_of};
ghost use Rattle.scad_members.specs.Meaning.{member, members_from, combined};
ghost use Rattle.scad_members.specs.Stack.{Goes, Starts, rest, made_in, goes_on, listed, onward};

use crate::frames::here;
use crate::item::{is_marked, next_statement};
use crate::scopes::open_scope;
use crate::stack::Stack;
use crate::work::{Focus, Frame, at_work};
use scad_ast::{Item, Scope};
use scad_expr::{EvalFault, Machine};
use scad_fault::Place;
use scad_leaves::{Operation, tree_of_operation};
use scad_machine::is_statement;
use scad_tree::Tree;

/// An item is run where it is a statement, its tree is a member unless it is marked `%`, and then comes what is behind
/// it.
pub(crate) fn member<'p>(
    item: &'p Item,
    behind: Focus<'p>,
    stack: &mut Stack<'p>,
) -> Result<Focus<'p>, EvalFault>
    ensures goes { (h : Held) (s : State) (o : Outcome Solid) → o ≡ and_then
        (member (below_of h) stack.old.stands (env_in h) (along_in h) (item_of item.now) (made_in stack.old) s)
        (goes_on behind.entry (rest stack.old) stack.old.stands h) → Starts o result stack.new h s }
    ensures memory { IfErr result (λ e. e ≡ Memory) }
{
    if !is_statement(item) {
        return Ok(behind);
    }
    stack.push(Frame::Then(behind))?;
    stack.push(Frame::Member(is_marked(item)))?;
    Ok(Focus::Statement(item))
}

/// The items of a scope from a number on: the first statement among them is run, and then those behind it.
pub fn members<'p>(
    scope: &'p Scope,
    next: usize,
    stack: &mut Stack<'p>,
) -> Result<Focus<'p>, EvalFault>
    ensures goes { (h : Held) (s : State) → Starts (and_then (members_from (below_of h) stack.old.stands (env_in h)
        (along_in h) (items (drop next scope.now.items)) (made_in stack.old) s)
        (listed (rest stack.old) stack.old.stands h)) result stack.new h s }
    ensures memory { IfErr result (λ e. e ≡ Memory) }
{
    let number = next_statement(scope, next);
    if number >= scope.len() {
        return Ok(Focus::Given(Tree::empty()));
    }
    member(&scope[number], Focus::Members(scope, number + 1), stack)
}

/// The tree of an operation over the statements of a scope, which is opened inside the frame from which names are
/// sought. Without items it gives nothing, and no frame is opened.
#[tactic(auto, using(crate::proofs::Onward::nodes), unfolding(crate::specs::Meaning::combined, crate::specs::Meaning::members))]
pub fn combined<'p>(
    operation: Operation,
    at: Place,
    scope: &'p Scope,
    stack: &mut Stack<'p>,
    m: &mut Machine<'p>,
) -> Result<Focus<'p>, EvalFault>
    ensures { (o : Outcome Solid) → o ≡ onward (combined (below_of (held m.old)) operation at stack.old.stands
        (items scope.now.items) (env_in (held m.old)) (along_in (held m.old)) (state_of m.old)) stack.old m.old
        → Goes o result stack.new m.new }
{
    if scope.is_empty() {
        return Ok(Focus::Given(Tree::empty()));
    }
    let home = here(m);
    let back = open_scope(stack.alloc, home, scope, m)?;
    stack.begin(operation, at, back)?;
    Ok(Focus::Members(scope, 0))
}

/// The members have their operation.
#[tactic(auto, using(crate::proofs::Onward::nodes), unfolding(crate::specs::Stack::goes_on))]
pub fn made_of<'p>(
    operation: Operation,
    at: Place,
    outer: Vec<Tree>,
    stack: &mut Stack<'p>,
    m: &mut Machine<'p>,
) -> Result<Focus<'p>, EvalFault>
    ensures { Goes (and_then (judged at (operated operation (made_in stack.old)) (state_of m.old))
        (rest stack.old stack.old.stands (held m.old) (trees_in outer))) result stack.new m.new }
{
    let members = stack.exchange(outer);
    at_work(tree_of_operation(stack.alloc, operation, at, members))
}
