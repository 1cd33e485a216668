//! `children`.

ghost use Rattle.std.specs.Prelude.{◌≡◌, [], IfErr};
ghost use Rattle.scad_ast.specs.Scope.{items};
ghost use Rattle.scad_tree.specs.Solid.{Solid};
ghost use Rattle.scad_modules.specs.View.{datum_in};
ghost use Rattle.scad_machine.specs.declared.fault.EvalFault.TheVariants.{Memory};
ghost use Rattle.scad_expr.specs.Machine.{Held, held, env_in, along_in, state_of};
ghost use Rattle.scad_expr.specs.State.{State, Outcome, and_then};
ghost use Rattle.scad_members.specs.Frames.{below_of};
ghost use Rattle.scad_members.specs.Meaning.{children_by, chosen, run_children};
ghost use Rattle.scad_members.specs.Modules.{kept_children};
ghost use Rattle.scad_expr.specs.Runs.{left_in};
ghost use Rattle.scad_members.specs.Stack.{Goes, Starts, rest, made_in, listed, onward};

use crate::call_children::kept_children;
use crate::scope_members::member;
use crate::scopes::open_scope;
use crate::selection::{child_named, naming};
use crate::stack::Stack;
use crate::work::Focus;
use scad_ast::Scope;
use scad_expr::{EvalFault, Machine};
use scad_fault::Place;
use scad_leaves::Operation;
use scad_operations::{Remainder, next_value};
use scad_tree::Tree;
use scad_value::Value;

/// `children(i)`: the children run in their scope, whose assignments are evaluated anew.
#[tactic(auto, unfolding(crate::specs::Meaning::run_children, crate::specs::Stack::goes_on))]
pub fn children<'p>(
    at: Place,
    which: Option<&Value>,
    stack: &mut Stack<'p>,
    m: &mut Machine<'p>,
) -> Result<Focus<'p>, EvalFault>
    ensures { (o : Outcome Solid) → o ≡ onward (run_children (below_of (held m.old)) at stack.old.stands
        (along_in (held m.old)) (datum_in which.entry) (kept_children (env_in (held m.old))) (state_of m.old))
        stack.old m.old → Goes o result stack.new m.new }
{
    let Some(kept) = kept_children(m) else {
        return Ok(Focus::Given(Tree::empty()));
    };
    let back = open_scope(stack.alloc, kept.home, kept.scope, m)?;
    stack.begin(Operation::Unite, at, back)?;
    chosen(which, kept.scope, stack)
}

/// All children, or those that the items of a value name.
#[tactic(auto, using(crate::proofs::Onward::chosen_children))]
fn chosen<'p>(
    which: Option<&Value>,
    scope: &'p Scope,
    stack: &mut Stack<'p>,
) -> Result<Focus<'p>, EvalFault>
    requires { made_in stack.old ≡ [] }
    ensures goes { (h : Held) (s : State) → Starts (and_then (chosen (below_of h) stack.old.stands (env_in h)
        (along_in h) (items scope.now.items) (datum_in which.entry) s) (listed (rest stack.old) stack.old.stands h))
        result stack.new h s }
    ensures memory { IfErr result (λ e. e ≡ Memory) }
{
    match which {
        Some(value) => {
            let more = naming(stack.alloc, scope, value)?;
            Ok(Focus::Children(scope, more))
        }
        None => Ok(Focus::Members(scope, 0)),
    }
}

/// The child that the next value names is run, and then those that further values name.
#[tactic(auto, unfolding(crate::specs::Stack::goes_on))]
pub fn children_by<'p>(
    scope: &'p Scope,
    more: Remainder,
    stack: &mut Stack<'p>,
) -> Result<Focus<'p>, EvalFault>
    ensures goes { (h : Held) (s : State) → Starts (and_then (children_by (below_of h) stack.old.stands (env_in h)
        (along_in h) (items scope.now.items) (left_in more) (made_in stack.old) s)
        (listed (rest stack.old) stack.old.stands h)) result stack.new h s }
    ensures memory { IfErr result (λ e. e ≡ Memory) }
{
    let mut left = more;
    match next_value(stack.alloc, &mut left)? {
        Some(value) => match child_named(scope, &value) {
            Some(item) => member(item, Focus::Children(scope, left), stack),
            None => Ok(Focus::Children(scope, left)),
        },
        None => Ok(Focus::Given(Tree::empty())),
    }
}
