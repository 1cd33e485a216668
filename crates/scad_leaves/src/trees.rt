//! Trees of statements.

ghost use Rattle.std.specs.Prelude.{◌≡◌, IfOk};
ghost use Rattle.scad_tree.specs.View.{solid_of, solids};
ghost use Rattle.scad_machine.specs.Answers.{Does};
ghost use Rattle.scad_machine.specs.State.{State};
ghost use Rattle.scad_leaves.specs.Products.{judged};
ghost use Rattle.scad_leaves.specs.Operation.{operated};

use crate::operation::Operation;
use scad_fault::{BudgetKind, Place};
use scad_machine::{EvalFault, over};
use scad_tree::{Tree, intersect, subtract, unite};
use std::alloc::{AllocError, Global};

/// How deep the parts of a tree lie in one another at most.
const TREE_LIMIT: u32 = 200;

/// The tree of an operation, in normal form.
fn operated(alloc: Global, operation: Operation, members: Vec<Tree>) -> Result<Tree, AllocError>
    ensures { IfOk result (λ t. solid_of t ≡ operated operation (solids members.items)) }
{
    match operation {
        Operation::Unite => unite(alloc, members),
        Operation::Intersect => intersect(alloc, members),
        Operation::Subtract => subtract(alloc, members),
    }
}

/// The tree of an operation that the statement at a place makes; the budget Depth where its parts lie more than 200
/// deep in one another.
#[tactic(auto, unfolding(crate::specs::Products::judged, scad_machine::specs::State::over))]
pub fn tree_of_operation(
    alloc: Global,
    operation: Operation,
    at: Place,
    members: Vec<Tree>,
) -> Result<Tree, EvalFault>
    ensures { (s : State) → Does solid_of (judged at (operated operation (solids members.items)) s) result s }
{
    let tree = operated(alloc, operation, members)?;
    if tree.nesting() > TREE_LIMIT {
        return Err(over(BudgetKind::Depth, at));
    }
    Ok(tree)
}
