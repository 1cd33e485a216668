//! Depth, and the frames of scopes and calls.

ghost use Rattle.std.specs.Prelude.{◌≡◌, ◌≢◌, ◌-◌, IfOk, OnOk};
ghost use Rattle.scad_ast.specs.Scope.{items};
ghost use Rattle.scad_ast.specs.View.{arguments};
ghost use Rattle.scad_scope.specs.FrameStore.{env_at, envs};
ghost use Rattle.scad_expr.specs.Answers.{Does, nothing, done_at};
ghost use Rattle.scad_expr.specs.Machine.{held, env_in, along_in, state_of};
ghost use Rattle.scad_expr.specs.OpenFrames.{bound_in, left};
ghost use Rattle.scad_expr.specs.Meaning.{meaning, bound_in_order};
ghost use Rattle.scad_expr.specs.Variables.{empty, within};
ghost use Rattle.scad_members.specs.Frames.{with_depth, scope_held, IsScope};

use scad_ast::{Args, Scope};
use scad_expr::{EvalFault, Machine, let_names};
use scad_machine::last_of;
use std::alloc::Global;

/// How many levels of depth are left.
#[tactic(auto, unfolding(scad_machine::specs::Machine::held))]
pub fn depth(m: &Machine) -> u32
    ensures { result ≡ (held m.now).depth }
{
    m.depth_left
}

/// One level deeper, where one is left.
#[tactic(auto, unfolding(scad_machine::specs::Machine::held, scad_machine::specs::Machine::state_of))]
pub fn go_deeper(m: &mut Machine)
    requires { (held m.old).depth ≢ 0 }
    ensures same { state_of m.new ≡ state_of m.old }
    ensures held { held m.new ≡ with_depth ((held m.old).depth - 1) (held m.old) }
{
    m.depth_left -= 1;
}

/// At a level of depth again.
#[tactic(auto, unfolding(scad_machine::specs::Machine::held, scad_machine::specs::Machine::state_of))]
pub fn go_back(depth: u32, m: &mut Machine)
    ensures same { state_of m.new ≡ state_of m.old }
    ensures held { held m.new ≡ with_depth depth (held m.old) }
{
    m.depth_left = depth;
}

/// The number of the frame from which names are sought.
#[tactic(auto, unfolding(scad_machine::specs::Machine::held, scad_machine::specs::Machine::env_in))]
pub fn here(m: &Machine) -> u32
    ensures number { result ≡ (held m.now).here }
    ensures env { env_at (envs (held m.now).frames) result ≡ env_in (held m.now) }
{
    m.here
}

/// Opens the frames of a scope inside the frame of a number. Gives the number of the one from which names
/// were sought before.
#[tactic(auto, unfolding(scad_machine::specs::Machine::held, scad_machine::specs::Machine::state_of, crate::specs::Frames::scope_held))]
fn enter_scope<'p>(home: u32, scope: &'p Scope, m: &mut Machine<'p>) -> Result<u32, EvalFault>
    ensures does { Does nothing (done_at (state_of m.old)) result (state_of m.new) }
    ensures held { OnOk result (held m.new ≡ scope_held (items scope.now.items) home empty (held m.old)) }
    ensures back { IfOk result (λ back. back ≡ (held m.old).here) }
{
    let parent = last_of(&m.along);
    let number = m.frames.push(Some(home), Some(scope), None)?;
    m.along.push(parent, None, None)?;
    let back = m.here;
    m.here = number;
    Ok(back)
}

/// Opens the frames of a scope. Gives the number of the frame from which names were sought before.
#[tactic(auto, using(crate::proofs::ScopeFrames::opening))]
pub(crate) fn open_frames<'p>(
    home: u32,
    scope: &'p Scope,
    m: &mut Machine<'p>,
) -> Result<u32, EvalFault>
    ensures does { Does nothing (done_at (state_of m.old)) result (state_of m.new) }
    ensures scope { IfOk result (λ back. IsScope (items scope.now.items) home back (held m.new)) }
    ensures bound { OnOk result (bound_in (held m.new) ≡ empty) }
    ensures left { IfOk result (λ back. left back (held m.new) ≡ held m.old) }
{
    enter_scope(home, scope, m)
}

/// Opens the frames of a `let`.
pub(crate) fn open_names<'p>(
    alloc: Global,
    args: &'p Args,
    m: &mut Machine<'p>,
) -> Result<u32, EvalFault>
    ensures does { Does (λ _. bound_in (held m.new)) (bound_in_order (meaning (held m.old).depth) (env_in (held m.old))
        (along_in (held m.old)) (arguments args.now.items) empty (state_of m.old)) result (state_of m.new) }
    ensures env { OnOk result (env_in (held m.new) ≡ within (env_in (held m.old)) (bound_in (held m.new)).names) }
    ensures along { OnOk result (along_in (held m.new)
        ≡ within (along_in (held m.old)) (bound_in (held m.new)).dollars) }
    ensures back { IfOk result (λ back. left back (held m.new) ≡ held m.old) }
    ensures depth { OnOk result ((held m.new).depth ≡ (held m.old).depth) }
{
    let back = let_names(alloc, args, m)?;
    Ok(back)
}
