//! Turns of the machine until nothing is left to do.

ghost use Rattle.std.specs.Prelude.{◌≡◌, IfOk, if◌then◌else◌};
ghost use Rattle.scad_tree.specs.Normal.{united};
ghost use Rattle.scad_tree.specs.Solid.{nothing};
ghost use Rattle.scad_tree.specs.View.{solid_of};
ghost use Rattle.scad_expr.specs.Answers.{Does};
ghost use Rattle.scad_expr.specs.Machine.{held, state_of};
ghost use Rattle.scad_expr.specs.State.{gives};
ghost use Rattle.scad_leaves.specs.Profiles.{with_its_profiles};
ghost use Rattle.scad_inst.specs.Turns.{Ends, IsMore};
ghost use Rattle.scad_members.specs.Stack.{Goes, rest, made_in, goes_on, onto};

use crate::walk::{statement, unless_marked};
use scad_expr::{EvalFault, Machine};
use scad_leaves::{hull_made, with_its_profiles};
use scad_members::{
    Focus, Frame, Stack, at_work, children_by, go_back, made_of, members, turns, variables,
};
use scad_tree::{Tree, unite};
use std::alloc::AllocError;

/// What comes next.
#[derive(Drop)]
pub(crate) enum Next<'p> {
    More(Focus<'p>),
    /// The tree of the program.
    End(Tree),
}

/// The tree of a statement, unless it is marked `%`; where it is empty, no points of its profiles are kept.
fn statement_tree<'p>(marked: bool, from: usize, tree: Tree, m: &mut Machine<'p>) -> Tree
    ensures does { with_its_profiles from (if marked then nothing else solid_of tree) (state_of m.old) ≡ gives
        (solid_of result) (state_of m.new) }
    ensures kept { held m.new ≡ held m.old }
{
    let given = unless_marked(marked, tree);
    with_its_profiles(from, &given, m);
    given
}

/// A frame has its tree.
#[tactic(auto, using(crate::proofs::Onward::nodes, crate::proofs::Onward::given_frames), unfolding(scad_members::specs::Stack::onto, scad_members::specs::Stack::goes_on))]
fn given<'p>(
    frame: Frame<'p>,
    tree: Tree,
    stack: &mut Stack<'p>,
    m: &mut Machine<'p>,
) -> Result<Focus<'p>, EvalFault>
    ensures { Goes (onto frame.entry (rest stack.old) stack.old.stands (held m.old) (made_in stack.old) (solid_of tree)
        (state_of m.old)) result stack.new m.new }
{
    match frame {
        Frame::Mark(marked, depth, from) => {
            go_back(depth, m);
            Ok(Focus::Given(statement_tree(marked, from, tree, m)))
        }
        Frame::Member(marked) => {
            stack.add(marked, tree)?;
            Ok(Focus::Given(Tree::empty()))
        }
        Frame::Then(behind) => Ok(behind),
        Frame::Combine(operation, at, outer) => made_of(operation, at, outer, stack, m),
        Frame::Hull(call, from) => {
            at_work(hull_made(stack.alloc, call, &stack.stands, from, &tree, m))
        }
        Frame::Stand(outer) => {
            stack.go_to(*outer);
            Ok(Focus::Given(tree))
        }
        Frame::Leave(back) => {
            m.leave(back);
            Ok(Focus::Given(tree))
        }
    }
}

/// The union of the program's members.
fn program_tree<'p>(stack: &mut Stack<'p>) -> Result<Tree, AllocError>
    ensures { IfOk result (λ t. solid_of t ≡ united (made_in stack.old)) }
{
    let members = stack.exchange(Vec::new(stack.alloc));
    unite(stack.alloc, members)
}

/// There is more where something is at work.
#[inline(always)]
fn more<'p>(focus: Result<Focus<'p>, EvalFault>) -> Result<Next<'p>, EvalFault>
    ensures { IsMore focus.entry result }
{
    match focus {
        Ok(next) => Ok(Next::More(next)),
        Err(why) => Err(why),
    }
}

/// One turn.
#[inline(always)]
#[tactic(auto, unfolding(scad_members::specs::Stack::goes_on))]
fn turn<'p>(
    focus: Focus<'p>,
    stack: &mut Stack<'p>,
    m: &mut Machine<'p>,
) -> Result<Next<'p>, EvalFault>
    ensures { Ends (goes_on focus.entry (rest stack.old) stack.old.stands (held m.old) (made_in stack.old)
        (state_of m.old)) result stack.new m.new }
{
    match focus {
        Focus::Statement(item) => more(statement(item, stack, m)),
        Focus::Members(scope, next) => more(members(scope, next, stack)),
        Focus::Children(scope, values) => more(children_by(scope, values, stack)),
        Focus::Variables(call, next) => more(variables(call, next, stack, m)),
        Focus::Turns(variable, values) => more(turns(variable, values, stack, m)),
        Focus::Given(tree) => match stack.pop() {
            Some(frame) => more(given(frame, tree, stack, m)),
            None => Ok(Next::End(program_tree(stack)?)),
        },
    }
}

/// The tree of a program, by turns. A program takes at most 5,000,000 steps, and the turns past those of its steps
/// are one for each argument or value that is passed over: the loop counts far beyond them.
pub(crate) fn run<'p>(
    first: Focus<'p>,
    stack: &mut Stack<'p>,
    m: &mut Machine<'p>,
) -> Result<Tree, EvalFault>
    ensures { Does solid_of (goes_on first.entry (rest stack.old) stack.old.stands (held m.old) (made_in stack.old)
        (state_of m.old)) result (state_of m.new) }
{
    let mut focus = first;
    'turns: for _turn in 0..u64::MAX {
        match turn(focus, stack, m)? {
            Next::More(next) => focus = next,
            Next::End(tree) => return Ok(tree),
        }
    }
    Err(EvalFault::Memory)
}
