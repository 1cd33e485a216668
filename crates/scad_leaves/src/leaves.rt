//! Leaves, with their budgets.

ghost use Rattle.std.specs.Prelude.{◌≡◌, ◌<◌, ◌≤◌, true, List, length, Result, IfOk};
ghost use Rattle.scad_shapes.specs.Limits.{triangle_limit};
ghost use Rattle.scad_base.specs.Memory.{UnlessMemory};
ghost use Rattle.scad_solid.specs.declared.triangle.Triangle.{Triangle};
ghost use Rattle.scad_shapes.specs.Faults.{is_memory};
ghost use Rattle.scad_modules.specs.Primitive.{is_primitive};
ghost use Rattle.scad_modules.specs.Primitive.{triangles_of as triangles_in};
ghost use Rattle.scad_modules.specs.View.{primitive};
ghost use Rattle.scad_tree.specs.View.{solid_of};
ghost use Rattle.scad_machine.specs.Answers.{Does, nothing};
ghost use Rattle.scad_machine.specs.Machine.{held, state_of};
ghost use Rattle.scad_machine.specs.State.{State};
ghost use Rattle.scad_leaves.specs.Products.{count_leaf, count_triangles, placed, leaf};

use scad_fault::{BudgetKind, FaultKind, Place};
use scad_machine::{EvalFault, Machine, fault_at, over};
use scad_matrix::Matrix;
use scad_modules::{Primitive, solid_of, triangles_of};
use scad_shapes::ShapeFault;
use scad_solid::Triangles;
use scad_tree::Tree;
use std::alloc::Global;

/// The most leaves that a program makes.
const LEAF_LIMIT: u32 = 4096;
/// The most triangles of all leaves together.
pub(crate) const TRIANGLE_LIMIT: u64 = 200_000;

/// Counts a leaf.
#[tactic(auto, unfolding(crate::specs::Products::count_leaf, scad_machine::specs::State::over, scad_machine::specs::Machine::state_of, scad_machine::specs::Machine::held))]
pub(crate) fn count_leaf<'p>(at: Place, m: &mut Machine<'p>) -> Result<(), EvalFault>
    ensures does { Does nothing (count_leaf at (state_of m.old)) result (state_of m.new) }
    ensures kept { held m.new ≡ held m.old }
{
    if m.leaves >= LEAF_LIMIT {
        return Err(over(BudgetKind::Leaves, at));
    }
    m.leaves += 1;
    Ok(())
}

/// Counts so many triangles of a leaf, also where they are 2^64 - 1 because they are more.
#[tactic(auto, unfolding(crate::specs::Products::count_triangles, scad_machine::specs::State::over, scad_machine::specs::Machine::state_of, scad_machine::specs::Machine::held))]
pub(crate) fn count_triangles<'p>(
    count: u64,
    at: Place,
    m: &mut Machine<'p>,
) -> Result<(), EvalFault>
    ensures does { Does nothing (count_triangles count at (state_of m.old)) result (state_of m.new) }
    ensures kept { held m.new ≡ held m.old }
    ensures few { IfOk result (λ _. count ≤ triangle_limit) }
{
    if count > TRIANGLE_LIMIT || m.triangles > TRIANGLE_LIMIT - count {
        return Err(over(BudgetKind::Triangles, at));
    }
    m.triangles += count;
    Ok(())
}

/// Counts the triangles of a primitive.
#[tactic(auto, unfolding(crate::specs::Products::count_triangles, scad_machine::specs::State::over))]
fn count_primitive<'p>(p: &Primitive, at: Place, m: &mut Machine<'p>) -> Result<(), EvalFault>
    requires { is_primitive (primitive p.now) ≡ true }
    ensures does { Does nothing (count_triangles (triangles_in (primitive p.now)) at (state_of m.old)) result
        (state_of m.new) }
    ensures kept { held m.new ≡ held m.old }
    ensures few { IfOk result (λ _. triangles_in (primitive p.now) ≤ triangle_limit) }
{
    count_triangles(triangles_of(p), at, m)
}

/// A placed solid as a tree, or why there is none.
#[tactic(auto, unfolding(crate::specs::Products::placed, scad_machine::specs::State::fault))]
pub(crate) fn placed(
    alloc: Global,
    at: Place,
    solid: Result<Triangles, ShapeFault>,
) -> Result<Tree, EvalFault>
    requires { IfOk solid (λ t. 0 < length t) }
    ensures { (rule : Result (List Triangle) ShapeFault) (s : State) → UnlessMemory is_memory solid (solid ≡ rule)
        → Does solid_of (placed at rule s) result s }
{
    match solid {
        Ok(triangles) => Ok(Tree::leaf(triangles)),
        Err(ShapeFault::CoordinateRange) => Err(fault_at(alloc, FaultKind::CoordinateRange, at)),
        Err(ShapeFault::NotClosed) => Err(fault_at(alloc, FaultKind::NotClosed, at)),
        Err(ShapeFault::Memory) => Err(EvalFault::Memory),
    }
}

/// A leaf: it is counted, then its triangles, and then it is placed.
#[tactic(auto, unfolding(crate::specs::Products::leaf))]
pub(crate) fn leaf<'p>(
    alloc: Global,
    at: Place,
    p: &Primitive,
    whole: &Matrix,
    m: &mut Machine<'p>,
) -> Result<Tree, EvalFault>
    requires { is_primitive (primitive p.now) ≡ true }
    ensures does { Does solid_of (leaf at (primitive p.now) whole.now (state_of m.old)) result (state_of m.new) }
    ensures kept { held m.new ≡ held m.old }
{
    count_leaf(at, m)?;
    count_primitive(p, at, m)?;
    placed(alloc, at, solid_of(alloc, p, whole))
}
