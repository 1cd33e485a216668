//! Names that are bound one behind another.

ghost use Rattle.std.specs.Prelude.{◌≡◌, IfOk, OnOk};
ghost use Rattle.scad_ast.specs.View.{expression_of, arguments};
ghost use Rattle.scad_machine.specs.Answers.{Does};
ghost use Rattle.scad_machine.specs.Machine.{held, env_in, along_in, state_of};
ghost use Rattle.scad_stack.specs.Meaning.{bound_in_order, meaning};
ghost use Rattle.scad_machine.specs.OpenFrames.{bound_in, outer, left, IsInner};
ghost use Rattle.scad_stack.specs.Pieces.{bind_one};
ghost use Rattle.scad_machine.specs.Variables.{empty, within};

use crate::run::eval_at;
use scad_ast::{Arg, Args};
use scad_machine::{EvalFault, Machine};
use std::alloc::Global;

/// Opens frames for the names of a `let`, and binds them from left to right, each seeing those before it. Gives the number of
/// the frame from which names were sought before: `leave` takes the frames away again.
#[tactic(auto, using(scad_machine::proofs::OpenFrames::inner))]
pub fn let_names<'p>(
    alloc: Global,
    args: &'p Args,
    machine: &mut Machine<'p>,
) -> Result<u32, EvalFault>
    ensures does { Does (λ _. bound_in (held machine.new)) (bound_in_order
        (meaning (held machine.old).depth) (env_in (held machine.old)) (along_in (held machine.old))
        (arguments args.now.items) empty (state_of machine.old)) result (state_of machine.new) }
    ensures env { OnOk result (env_in (held machine.new)
        ≡ within (env_in (held machine.old)) (bound_in (held machine.new)).names) }
    ensures along { OnOk result (along_in (held machine.new)
        ≡ within (along_in (held machine.old)) (bound_in (held machine.new)).dollars) }
    ensures back { IfOk result (λ back. left back (held machine.new) ≡ held machine.old) }
{
    let depth = machine.depth();
    let back = machine.open()?;
    set_names(alloc, args, depth, machine)?;
    Ok(back)
}

/// Binds names from left to right in the last frames.
fn set_names<'p>(
    alloc: Global,
    args: &'p [Arg],
    depth: u32,
    m: &mut Machine<'p>,
) -> Result<(), EvalFault>
    requires { IsInner (held m.old) }
    ensures does { Does (λ _. bound_in (held m.new)) (bound_in_order (meaning depth)
        (env_in (outer (held m.old))) (along_in (outer (held m.old))) (arguments args.now)
        (bound_in (held m.old)) (state_of m.old)) result (state_of m.new) }
    ensures inner { OnOk result (IsInner (held m.new)) }
    ensures outer { OnOk result (outer (held m.new) ≡ outer (held m.old)) }
{
    'names: for arg in args {
        set_one(alloc, arg, depth, m)?;
    }
    Ok(())
}

/// Binds a name in the last frames.
#[tactic(auto, using(scad_machine::proofs::OpenFrames::inner), unfolding(scad_stack::specs::Pieces::bind_one))]
fn set_one<'p>(
    alloc: Global,
    arg: &'p Arg,
    depth: u32,
    m: &mut Machine<'p>,
) -> Result<(), EvalFault>
    requires { IsInner (held m.old) }
    ensures does { Does (λ _. bound_in (held m.new)) (bind_one (meaning depth)
        (env_in (outer (held m.old))) (along_in (outer (held m.old))) arg.now.name
        (expression_of arg.now.value) (bound_in (held m.old)) (state_of m.old))
        result (state_of m.new) }
    ensures inner { OnOk result (IsInner (held m.new)) }
    ensures outer { OnOk result (outer (held m.new) ≡ outer (held m.old)) }
{
    match &arg.name {
        Some(name) => {
            let value = eval_at(alloc, &arg.value, depth, m)?;
            m.set(name.as_slice(), value)
        }
        None => Ok(()),
    }
}
