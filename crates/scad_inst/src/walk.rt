//! Statements.

ghost use Rattle.std.specs.Prelude.{◌≡◌, Bool, if◌then◌else◌};
ghost use Rattle.scad_ast.specs.Scope.{item_of, body_of, items};
ghost use Rattle.scad_ast.specs.Tree.{choice};
ghost use Rattle.scad_ast.specs.View.{expression_of};
ghost use Rattle.scad_tree.specs.Solid.{Solid, nothing};
ghost use Rattle.scad_tree.specs.View.{solid_of};
ghost use Rattle.scad_expr.specs.Machine.{held, env_in, along_in, state_of};
ghost use Rattle.scad_expr.specs.State.{Outcome};
ghost use Rattle.scad_members.specs.Frames.{below_of};
ghost use Rattle.scad_members.specs.Meaning.{node};
ghost use Rattle.scad_members.specs.Stack.{Goes, onward};

use crate::call::call;
use scad_ast::{Expr, Item, Scope, Stmt, StmtBody};
use scad_expr::{EvalFault, Machine, eval};
use scad_fault::{BudgetKind, Place};
use scad_leaves::{Call, Operation, profile_count};
use scad_machine::over;
use scad_members::{Focus, Frame, Stack, combined, depth, go_deeper, is_marked, item_place};
use scad_tree::Tree;
use scad_value::truth;

/// A statement takes a step as it begins, with the levels of depth that the machine has left for it, and what it
/// holds or calls stands one deeper.
#[tactic(auto, using(scad_members::proofs::Levels::levels), unfolding(scad_machine::specs::State::over))]
pub(crate) fn statement<'p>(
    item: &'p Item,
    stack: &mut Stack<'p>,
    m: &mut Machine<'p>,
) -> Result<Focus<'p>, EvalFault>
    ensures { Goes (onward ((below_of (held m.old)).statement stack.old.stands (env_in (held m.old)) (along_in
        (held m.old)) (item_of item.now) (state_of m.old)) stack.old m.old) result stack.new m.new }
{
    let at = item_place(item);
    let depth = depth(m);
    if depth == 0 {
        return Err(over(BudgetKind::Depth, at));
    }
    go_deeper(m);
    m.step(at)?;
    let from = profile_count(m);
    stack.push(Frame::Mark(is_marked(item), depth, from))?;
    node(item, stack, m)
}

/// The tree, unless its statement is marked `%`.
pub(crate) fn unless_marked(marked: bool, tree: Tree) -> Tree
    ensures { solid_of result ≡ (if marked then nothing else solid_of tree) }
{
    if marked { Tree::empty() } else { tree }
}

/// Definitions and assignments aren't run.
#[tactic(auto, using(scad_members::proofs::Items::kinds), unfolding(scad_members::specs::Meaning::node, scad_members::specs::Stack::goes_on))]
fn node<'p>(
    item: &'p Item,
    stack: &mut Stack<'p>,
    m: &mut Machine<'p>,
) -> Result<Focus<'p>, EvalFault>
    ensures { (o : Outcome Solid) → o ≡ onward (node (below_of (held m.old)) stack.old.stands (env_in (held
        m.old)) (along_in (held m.old)) (item_of item.now) (state_of m.old)) stack.old m.old → Goes
        o result stack.new m.new }
{
    match item {
        Item::Run(stmt) => run(stmt, stack, m),
        Item::Assign(_, _, _) => Ok(Focus::Given(Tree::empty())),
        Item::Module(_, _, _, _) => Ok(Focus::Given(Tree::empty())),
        Item::Function(_, _, _, _) => Ok(Focus::Given(Tree::empty())),
    }
}

/// One arm for each kind of statement.
fn run<'p>(
    stmt: &'p Stmt,
    stack: &mut Stack<'p>,
    m: &mut Machine<'p>,
) -> Result<Focus<'p>, EvalFault>
    ensures { (o : Outcome Solid) → o ≡ onward (node (below_of (held m.old)) stack.old.stands (env_in (held
        m.old)) (along_in (held m.old)) (body_of stmt.now.at stmt.now.percent stmt.now.hash
        stmt.now.body) (state_of m.old)) stack.old m.old → Goes o result stack.new m.new }
{
    match &stmt.body {
        StmtBody::Call(name, args, all) => {
            let name = name.as_slice();
            let at = stmt.at;
            call(
                Call {
                    at,
                    name,
                    args,
                    all,
                },
                stack,
                m,
            )
        }
        StmtBody::If(test, held, other) => {
            let at = stmt.at;
            choose(
                Choice {
                    at,
                    test,
                    held,
                    other,
                },
                stack,
                m,
            )
        }
    }
}

/// `if (test) held else other`
#[derive(Clone, Copy)]
struct Choice<'p> {
    at: Place,
    test: &'p Expr,
    held: &'p Scope,
    other: &'p Scope,
}

/// The test, and then the chosen statements as one scope.
#[tactic(auto, using(scad_members::proofs::Levels::expressions, crate::proofs::Onward::nodes), unfolding(scad_members::specs::Meaning::node))]
fn choose<'p>(
    branch: Choice<'p>,
    stack: &mut Stack<'p>,
    m: &mut Machine<'p>,
) -> Result<Focus<'p>, EvalFault>
    ensures { (percent hash : Bool) (o : Outcome Solid) → o ≡ onward (node (below_of (held m.old))
        stack.old.stands (env_in (held m.old)) (along_in (held m.old)) (choice branch.entry.at percent hash
        (expression_of branch.entry.test.now) (items branch.entry.held.now.items) (items
        branch.entry.other.now.items)) (state_of m.old)) stack.old m.old → Goes o result stack.new
        m.new }
{
    let d = eval(stack.alloc, branch.test, m)?;
    if truth(&d) {
        combined(Operation::Unite, branch.at, branch.held, stack, m)
    } else {
        combined(Operation::Unite, branch.at, branch.other, stack, m)
    }
}
