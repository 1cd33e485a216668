//! The frames of scopes, with the names that their assignments give.

ghost use Rattle.std.specs.Prelude.{◌≡◌, ◌∷◌, [], Some, IfOk, OnOk};
ghost use Rattle.scad_ast.specs.Scope.{item_of, items};
ghost use Rattle.scad_ast.specs.View.{expression_of};
ghost use Rattle.scad_value.specs.View.{datum_of};
ghost use Rattle.scad_bindings.specs.Assignments.{bindings};
ghost use Rattle.scad_scope.specs.FrameStore.{env_at, envs};
ghost use Rattle.scad_expr.specs.Answers.{Does};
ghost use Rattle.scad_expr.specs.Machine.{held, env_in, along_in, state_of};
ghost use Rattle.scad_expr.specs.OpenFrames.{bound_in, left, opened_in};
ghost use Rattle.scad_members.specs.Frames.{below_of, IsScope};
ghost use Rattle.scad_members.specs.Meaning.{assigned_value, assigned, opened_scope};
ghost use Rattle.scad_members.specs.Scopes.{item_at};

use crate::frames::{depth, go_back, go_deeper, open_frames};
use scad_ast::{Expr, Item, Scope};
use scad_bindings::{Binding, bindings};
use scad_expr::{EvalFault, Machine, eval};
use scad_fault::{BudgetKind, Place};
use scad_machine::over;
use scad_value::Value;
use std::alloc::Global;

/// The value of an assignment: it takes a step, and its expression stands one deeper.
#[tactic(auto, using(crate::proofs::Levels::levels, crate::proofs::Levels::back), unfolding(scad_machine::specs::State::over))]
fn assignment<'p>(
    alloc: Global,
    at: Place,
    value: &'p Expr,
    m: &mut Machine<'p>,
) -> Result<Value, EvalFault>
    ensures does { Does datum_of ((below_of (held m.old)).assignment (env_in (held m.old)) (along_in (held m.old)) at
        (expression_of value.now) (state_of m.old)) result (state_of m.new) }
    ensures kept { OnOk result (held m.new ≡ held m.old) }
{
    let depth = depth(m);
    if depth == 0 {
        return Err(over(BudgetKind::Depth, at));
    }
    m.step(at)?;
    go_deeper(m);
    let value = eval(alloc, value, m)?;
    go_back(depth, m);
    Ok(value)
}

/// The value of the assignment that stands at a place of a scope.
#[tactic(auto, using(crate::proofs::Items::placed), unfolding(crate::specs::Meaning::assigned_value))]
fn assigned_value<'p>(
    alloc: Global,
    scope: &'p Scope,
    place: usize,
    m: &mut Machine<'p>,
) -> Result<Value, EvalFault>
    ensures does { Does datum_of (assigned_value (below_of (held m.old)) (env_in (held m.old)) (along_in (held m.old))
        (item_at (items scope.now.items) place) (state_of m.old)) result (state_of m.new) }
    ensures kept { OnOk result (held m.new ≡ held m.old) }
{
    if place >= scope.len() {
        return Ok(Value::Undef);
    }
    value_of(alloc, &scope[place], m)
}

#[tactic(auto, using(crate::proofs::Items::kinds), unfolding(crate::specs::Meaning::assigned_value))]
fn value_of<'p>(alloc: Global, item: &'p Item, m: &mut Machine<'p>) -> Result<Value, EvalFault>
    ensures does { Does datum_of (assigned_value (below_of (held m.old)) (env_in (held m.old)) (along_in (held m.old))
        (Some (item_of item.now)) (state_of m.old)) result (state_of m.new) }
    ensures kept { OnOk result (held m.new ≡ held m.old) }
{
    match item {
        Item::Assign(_, value, at) => assignment(alloc, *at, value, m),
        Item::Module(_, _, _, _) => Ok(Value::Undef),
        Item::Function(_, _, _, _) => Ok(Value::Undef),
        Item::Run(_) => Ok(Value::Undef),
    }
}

/// Evaluates an assignment of the scope whose frames are the last, and sets its name there.
#[tactic(auto, using(crate::proofs::ScopeFrames::setting), unfolding(crate::specs::Meaning::assigned))]
fn assign_one<'p>(
    alloc: Global,
    scope: &'p Scope,
    home: u32,
    back: u32,
    binding: &Binding,
    m: &mut Machine<'p>,
) -> Result<(), EvalFault>
    requires { IsScope (items scope.now.items) home back (held m.old) }
    ensures does { Does (λ _. bound_in (held m.new)) (assigned (below_of (held m.old)) (items scope.now.items)
        (env_at (envs (left back (held m.old)).frames) home) (along_in (left back (held m.old)))
        (binding.now ∷ []) (bound_in (held m.old)) (state_of m.old)) result (state_of m.new) }
    ensures scope { OnOk result (IsScope (items scope.now.items) home back (held m.new)) }
    ensures left { OnOk result (left back (held m.new) ≡ left back (held m.old)) }
{
    let value = assigned_value(alloc, scope, binding.item, m)?;
    m.set(binding.name.as_slice(), value)
}

/// Evaluates the assignments of the scope whose frames are the last, and sets its names there.
#[tactic(auto, using(crate::proofs::AssignedNames::names, crate::proofs::ScopeFrames::depths))]
fn assign<'p>(
    alloc: Global,
    scope: &'p Scope,
    home: u32,
    back: u32,
    all: &[Binding],
    m: &mut Machine<'p>,
) -> Result<(), EvalFault>
    requires { IsScope (items scope.now.items) home back (held m.old) }
    ensures does { Does (λ _. bound_in (held m.new)) (assigned (below_of (held m.old)) (items scope.now.items)
        (env_at (envs (left back (held m.old)).frames) home) (along_in (left back (held m.old)))
        all.now (bound_in (held m.old)) (state_of m.old)) result (state_of m.new) }
    ensures scope { OnOk result (IsScope (items scope.now.items) home back (held m.new)) }
    ensures left { OnOk result (left back (held m.new) ≡ left back (held m.old)) }
{
    'names: for binding in all {
        assign_one(alloc, scope, home, back, binding, m)?;
    }
    Ok(())
}

/// Opens the frames of a scope inside the frame of a number, with its names. Gives the number of the frame
/// from which names were sought before.
#[tactic(auto, using(crate::proofs::ScopeFrames::all_opened), unfolding(crate::specs::Meaning::opened_scope))]
pub fn open_scope<'p>(
    alloc: Global,
    home: u32,
    scope: &'p Scope,
    m: &mut Machine<'p>,
) -> Result<u32, EvalFault>
    ensures does { Does (λ _. opened_in (held m.new)) (opened_scope (below_of (held m.old)) (items scope.now.items)
        (env_at (envs (held m.old).frames) home) (along_in (held m.old)) (state_of m.old)) result (state_of m.new) }
    ensures back { IfOk result (λ back. left back (held m.new) ≡ held m.old) }
    ensures depth { OnOk result ((held m.new).depth ≡ (held m.old).depth) }
{
    let all = bindings(alloc, scope)?;
    let back = open_frames(home, scope, m)?;
    assign(alloc, scope, home, back, all.as_slice(), m)?;
    Ok(back)
}
