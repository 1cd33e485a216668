//! The values of arguments, and the frames of a call.

ghost use Rattle.std.specs.Prelude.{◌≡◌, [], ◌<◌, length, map, option_map, IfOk, OnOk};
ghost use Rattle.scad_ast.specs.Scope.{parameter};
ghost use Rattle.scad_ast.specs.View.{expression_of, arguments};
ghost use Rattle.scad_value.specs.View.{datum_of, data_in};
ghost use Rattle.scad_scope.specs.Env.{inside, frame};
ghost use Rattle.scad_scope.specs.FrameStore.{env_at, envs, children_in};
ghost use Rattle.scad_scope.specs.View.{children_stored};
ghost use Rattle.scad_machine.specs.Answers.{Does};
ghost use Rattle.scad_machine.specs.Machine.{held, env_in, along_in, state_of};
ghost use Rattle.scad_stack.specs.Meaning.{values, default_value, bound, bind, meaning};
ghost use Rattle.scad_machine.specs.OpenFrames.{opened, bound_in, left, opened_in};
ghost use Rattle.scad_machine.specs.Variables.{within};

use crate::run::eval_at;
use scad_ast::{Arg, Args, Param};
use scad_machine::{CallFrames, Callee, EvalFault, Invocation, Machine};
use scad_scope::Kept;
use scad_value::Value;
use std::alloc::Global;

/// The values of arguments, from left to right.
pub fn values<'p>(
    alloc: Global,
    args: &'p Args,
    machine: &mut Machine<'p>,
) -> Result<Vec<Value>, EvalFault>
    ensures does { Does data_in (values (meaning (held machine.old).depth)
        (env_in (held machine.old)) (along_in (held machine.old)) (arguments args.now.items) []
        (state_of machine.old)) result (state_of machine.new) }
    ensures kept { OnOk result (held machine.new ≡ held machine.old) }
{
    let depth = machine.depth();
    values_at(alloc, args, depth, machine)
}

/// Opens the frames of a call of a function or module whose definition stands in the frame `home`: the
/// last frame of `frames`, from which names are then sought, and the last of `along`. Arguments with
/// their values go to the parameters, missing ones take their defaults, and where child statements are
/// kept `$children` is their number.
pub fn bind<'p>(
    alloc: Global,
    callee: Callee<'p>,
    args: &'p Args,
    values: Vec<Value>,
    kept: Option<Kept<'p>>,
    machine: &mut Machine<'p>,
) -> Result<(), EvalFault>
    requires { callee.home < length (held machine.old).frames }
    ensures does { Does (λ _. opened_in (held machine.new)) (bind (held machine.old).depth
        (env_at (envs (held machine.old).frames) callee.entry.home) (along_in (held machine.old))
        (map parameter callee.entry.params.now.items) (arguments args.now.items) (data_in values)
        (children_in (envs (held machine.old).frames) (option_map children_stored kept.entry))
        (state_of machine.old)) result (state_of machine.new) }
    ensures opened { OnOk result (held machine.new ≡ opened (option_map children_stored kept.entry)
        (length (held machine.old).frames) callee.entry.home (bound_in (held machine.new)) (held machine.old)) }
{
    let depth = machine.depth();
    let call = Invocation { callee, args, kept };
    let _back = bind_at(alloc, call, values, depth, machine)?;
    machine.count_children(kept)?;
    Ok(())
}

/// The values of arguments, with so many levels of depth left.
pub(crate) fn values_at<'p>(
    alloc: Global,
    args: &'p [Arg],
    depth: u32,
    m: &mut Machine<'p>,
) -> Result<Vec<Value>, EvalFault>
    ensures does { Does data_in (values (meaning depth) (env_in (held m.old))
        (along_in (held m.old)) (arguments args.now) [] (state_of m.old)) result (state_of m.new) }
    ensures kept { OnOk result (held m.new ≡ held m.old) }
{
    let mut so_far = Vec::new(alloc);
    'arguments: for arg in args {
        let value = eval_at(alloc, &arg.value, depth, m)?;
        so_far.push(value)?;
    }
    Ok(so_far)
}

/// Opens the frames of a call. Gives the number of the frame from which names were sought before.
fn bind_at<'p>(
    alloc: Global,
    call: Invocation<'p>,
    found: Vec<Value>,
    depth: u32,
    m: &mut Machine<'p>,
) -> Result<u32, EvalFault>
    requires { call.callee.home < length (held m.old).frames }
    ensures does { Does (λ _. bound_in (held m.new)) (bound (meaning depth)
        (env_at (envs (held m.old).frames) call.entry.callee.home) (along_in (held m.old))
        (map parameter call.entry.callee.params.now.items) (arguments call.entry.args.now) (data_in found)
        (state_of m.old)) result (state_of m.new) }
    ensures opened { OnOk result (held m.new ≡ opened (option_map children_stored call.entry.kept)
        (length (held m.old).frames) call.entry.callee.home (bound_in (held m.new)) (held m.old)) }
    ensures env { OnOk result (env_in (held m.new) ≡ inside (frame (bound_in (held m.new)).names None
        (children_in (envs (held m.old).frames) (option_map children_stored call.entry.kept)))
        (env_at (envs (held m.old).frames) call.entry.callee.home)) }
    ensures along { OnOk result (along_in (held m.new)
        ≡ within (along_in (held m.old)) (bound_in (held m.new)).dollars) }
    ensures back { IfOk result (λ back. left back (held m.new) ≡ held m.old) }
{
    let CallFrames {
        missing,
        inner,
        back,
    } = m.call(alloc, call, found)?;
    'missing: for param in missing {
        let value = default_of(alloc, param, depth, m)?;
        m.set(param.name.as_slice(), value)?;
    }
    let _home = m.go(inner);
    Ok(back)
}

/// The default of a parameter, or `undef`.
#[tactic(auto, unfolding(scad_stack::specs::Meaning::default_value))]
fn default_of<'p>(
    alloc: Global,
    param: &'p Param,
    depth: u32,
    m: &mut Machine<'p>,
) -> Result<Value, EvalFault>
    ensures does { Does datum_of (default_value (meaning depth) (env_in (held m.old))
        (along_in (held m.old)) (option_map expression_of param.now.default) (state_of m.old))
        result (state_of m.new) }
    ensures kept { OnOk result (held m.new ≡ held m.old) }
{
    match &param.default {
        Some(e) => eval_at(alloc, e, depth, m),
        None => Ok(Value::Undef),
    }
}
