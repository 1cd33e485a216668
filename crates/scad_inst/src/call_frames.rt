//! The frames of calls of modules.

ghost use Rattle.std.specs.Prelude.{◌≡◌, ◌<◌, ◌∷◌, [], length, IfOk, OnOk};
ghost use Rattle.scad_ast.specs.Scope.{items};
ghost use Rattle.scad_ast.specs.View.{arguments, expression_of};
ghost use Rattle.scad_ast.specs.Tree.{argument, no_arguments};
ghost use Rattle.scad_value.specs.View.{datum_of, data_in, data_of};
ghost use Rattle.scad_scope.specs.FrameStore.{envs};
ghost use Rattle.scad_expr.specs.Answers.{Does, nothing, done_at};
ghost use Rattle.scad_expr.specs.Machine.{held, env_in, along_in, state_of};
ghost use Rattle.scad_expr.specs.OpenFrames.{bound_in, left, opened_in, outer, IsInner};
ghost use Rattle.scad_expr.specs.Variables.{empty, within};
ghost use Rattle.scad_members.specs.Frames.{below_of};
ghost use Rattle.scad_members.specs.OpenFrames.{dollars_of};
ghost use Rattle.scad_inst.specs.Calls.{own_opened};
ghost use Rattle.scad_inst.specs.View.{found_at};

use crate::modules::DefinedAt;
use scad_ast::{Arg, Args, Scope};
use scad_expr::{Callee, EvalFault, Machine, bind};
use scad_machine::is_dollar;
use scad_members::here;
use scad_scope::Kept;
use scad_value::{Value, copy};
use std::alloc::Global;

/// Opens the frames of a call of a module of the program, with the values of its arguments. Gives the number
/// of the frame from which names were sought before.
#[tactic(auto, using(crate::proofs::CallFrames::own))]
pub(crate) fn open_own<'p>(
    alloc: Global,
    own: DefinedAt<'p>,
    args: &'p Args,
    found: Vec<Value>,
    all: &'p Scope,
    m: &mut Machine<'p>,
) -> Result<u32, EvalFault>
    requires { own.home < length (held m.old).frames }
    ensures does { Does (λ _. opened_in (held m.new)) (own_opened (below_of (held m.old)) (env_in (held m.old))
        (along_in (held m.old)) (found_at (envs (held m.old).frames) own.entry) (arguments args.now.items)
        (data_in found) (items all.now.items) (state_of m.old)) result (state_of m.new) }
    ensures back { IfOk result (λ back. left back (held m.new) ≡ held m.old) }
    ensures depth { OnOk result ((held m.new).depth ≡ (held m.old).depth) }
{
    let back = here(m);
    let kept = Some(Kept {
        scope: all,
        home: back,
    });
    let callee = Callee {
        params: own.module.params,
        home: own.home,
    };
    bind(alloc, callee, args, found, kept, m)?;
    Ok(back)
}

/// Sets the name of an argument in the last frames, where it begins with `$`.
#[tactic(auto, using(scad_machine::proofs::OpenFrames::inner), unfolding(scad_members::specs::OpenFrames::dollars_of))]
fn set_dollar<'p>(
    alloc: Global,
    arg: &Arg,
    value: &Value,
    m: &mut Machine<'p>,
) -> Result<(), EvalFault>
    requires { IsInner (held m.old) }
    ensures does { Does nothing (done_at (state_of m.old)) result (state_of m.new) }
    ensures bound { OnOk result (bound_in (held m.new)
        ≡ dollars_of (argument arg.now.name (expression_of arg.now.value) no_arguments)
        (datum_of value.now ∷ []) (bound_in (held m.old))) }
    ensures inner { OnOk result (IsInner (held m.new)) }
    ensures outer { OnOk result (outer (held m.new) ≡ outer (held m.old)) }
{
    match &arg.name {
        Some(name) => {
            if is_dollar(name.as_slice()) {
                let value = copy(alloc, value)?;
                m.set(name.as_slice(), value)
            } else {
                Ok(())
            }
        }
        None => Ok(()),
    }
}

/// Sets each name of an argument that begins with `$` in the last frames.
fn set_dollars<'p>(
    alloc: Global,
    args: &[Arg],
    found: &[Value],
    m: &mut Machine<'p>,
) -> Result<(), EvalFault>
    requires { IsInner (held m.old) }
    ensures does { Does nothing (done_at (state_of m.old)) result (state_of m.new) }
    ensures bound { OnOk result (bound_in (held m.new)
        ≡ dollars_of (arguments args.now) (data_of found.now) (bound_in (held m.old))) }
    ensures inner { OnOk result (IsInner (held m.new)) }
    ensures outer { OnOk result (outer (held m.new) ≡ outer (held m.old)) }
{
    let mut k = 0;
    'arguments: for arg in args {
        if k >= found.len() {
            return Ok(());
        }
        set_dollar(alloc, arg, &found[k], m)?;
        k += 1;
    }
    Ok(())
}

/// Opens the frames of a call of a module of the language, with the `$` names among its arguments. Gives the
/// number of the frame from which names were sought before.
#[tactic(auto, using(scad_machine::proofs::OpenFrames::inner))]
pub(crate) fn open_known<'p>(
    alloc: Global,
    args: &'p Args,
    found: &[Value],
    m: &mut Machine<'p>,
) -> Result<u32, EvalFault>
    ensures does { Does nothing (done_at (state_of m.old)) result (state_of m.new) }
    ensures env { OnOk result (env_in (held m.new) ≡ within (env_in (held m.old))
        (dollars_of (arguments args.now.items) (data_of found.now) empty).names) }
    ensures along { OnOk result (along_in (held m.new) ≡ within (along_in (held m.old))
        (dollars_of (arguments args.now.items) (data_of found.now) empty).dollars) }
    ensures back { IfOk result (λ back. left back (held m.new) ≡ held m.old) }
    ensures depth { OnOk result ((held m.new).depth ≡ (held m.old).depth) }
{
    let back = m.open()?;
    set_dollars(alloc, args, found, m)?;
    Ok(back)
}
