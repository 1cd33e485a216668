//! How finely circles are cut where a shape is called, and in how many turns an extrusion goes round.

ghost use Rattle.scad_ast.specs.View.{arguments};
ghost use Rattle.scad_value.specs.View.{data_of};
ghost use Rattle.scad_modules.specs.Extrusions.{turned_by};
ghost use Rattle.scad_modules.specs.View.{fine_at};
ghost use Rattle.scad_machine.specs.Answers.{Does};
ghost use Rattle.scad_machine.specs.Machine.{held, env_in, along_in, state_of};
ghost use Rattle.scad_machine.specs.State.{gives};
ghost use Rattle.scad_leaves.specs.Fineness.{fineness};
ghost use Rattle.scad_leaves.specs.Products.{argued};

use crate::arguments::argued;
use crate::call::Call;
use scad_machine::{EvalFault, Machine};
use scad_modules::{Fineness, Resolution, turned_by};
use scad_value::Value;
use std::alloc::Global;

/// `$fn`, `$fa` and `$fs`.
pub(crate) fn fineness(alloc: Global, m: &Machine) -> Result<Fineness, EvalFault>
    ensures { Does fine_at (gives (fineness (env_in (held m.now)) (along_in (held m.now))) (state_of
        m.now)) result (state_of m.now) }
{
    let fn_ = m.variable(alloc, b"$fn")?;
    let fa = m.variable(alloc, b"$fa")?;
    let fs = m.variable(alloc, b"$fs")?;
    Ok(Fineness { fn_, fa, fs })
}

/// The numbers by which the turns of a `rotate_extrude` are counted, as the arguments of a call say, or the fault of
/// the arguments.
pub fn called_resolution<'p>(
    alloc: Global,
    call: Call<'p>,
    found: &[Value],
    m: &Machine<'p>,
) -> Result<Resolution, EvalFault>
    ensures { Does (λ r. r) (argued call.entry.at call.entry.name.now (turned_by (fineness (env_in (held m.now))
        (along_in (held m.now))) (arguments call.entry.args.now.items) (data_of found.now)) (state_of m.now)) result
        (state_of m.now) }
{
    let fine = fineness(alloc, m)?;
    let read = turned_by(&fine, call.args, found);
    argued(alloc, call.at, call.name, read)
}
