//! Programs, and the machine before one.

ghost use Rattle.std.specs.Prelude.{◌≡◌, ◌≤◌, ◌∷◌, [], pos, false, unsigned_abs, codes, IfOk, IfErr, OnOk};
ghost use Rattle.scad_num.specs.Number.{most};
ghost use Rattle.scad_ast.specs.Scope.{items, program_of};
ghost use Rattle.scad_tree.specs.Solid.{Solid};
ghost use Rattle.scad_tree.specs.View.{solid_of};
ghost use Rattle.scad_expr.specs.Answers.{Does};
ghost use Rattle.scad_members.specs.Meaning.{means};
ghost use Rattle.scad_members.specs.Meaning.{program_of as outcome_of};
ghost use Rattle.scad_inst.specs.Model.{Makes};
ghost use Rattle.scad_value.specs.Datum.{number, boolean};
ghost use Rattle.scad_value.specs.View.{datum_of};
ghost use Rattle.scad_scope.specs.View.{stored};
ghost use Rattle.scad_expr.specs.Machine.{held, env_in, along_in, state_of};
ghost use Rattle.scad_expr.specs.State.{State, Outcome, start, depth_limit};
ghost use Rattle.scad_expr.specs.Variables.{first_env, first_along};
ghost use Rattle.scad_machine.specs.declared.fault.EvalFault.TheVariants.{Memory};
ghost use Rattle.scad_inst.specs.FirstFrames.{outermost};

use crate::answers::{Model, ModelEnd};
use crate::run::run;
use scad_ast::{Program, Scope};
use scad_expr::{DEPTH_LIMIT, EvalFault, Machine, STEP_LIMIT};
use scad_fault::Text;
use scad_members::{Focus, Stack, here, open_scope};
use scad_num::Num;
use scad_scope::Frames;
use scad_tree::Tree;
use scad_value::Value;
use std::alloc::Global;

/// A number of so many millionths.
fn number(millionths: i64) -> Value
    requires { unsigned_abs millionths ≤ most }
    ensures { datum_of result ≡ number millionths }
{
    Value::Number(Num::within(millionths))
}

/// One frame, without names.
fn outermost<'p>(alloc: Global) -> Result<Frames<'p>, EvalFault>
    ensures frame { IfOk result (λ f. stored f ≡ outermost [] ∷ []) }
    ensures memory { IfErr result (λ e. e ≡ Memory) }
{
    let mut frames = Frames::new(alloc);
    frames.push(None, None, None)?;
    Ok(frames)
}

/// The frame of the names outside a program's scope.
fn first_names<'p>(alloc: Global) -> Result<Frames<'p>, EvalFault>
    ensures frame { IfOk result (λ f. stored f
        ≡ outermost ((codes "PI", number (pos 3141593)) ∷ []) ∷ []) }
    ensures memory { IfErr result (λ e. e ≡ Memory) }
{
    let mut frames = outermost(alloc)?;
    frames.set(b"PI", number(3_141_593))?;
    Ok(frames)
}

/// Sets the `$` names at the start of a program.
fn set_dollars<'p>(frames: &mut Frames<'p>) -> Result<(), EvalFault>
    requires { stored frames.old ≡ outermost [] ∷ [] }
    ensures frame { OnOk result (stored frames.new ≡ outermost
        ((codes "$fn", number (pos 0)) ∷ (codes "$fa", number (pos 12000000)) ∷ (codes "$fs", number (pos 2000000))
        ∷ (codes "$children", number (pos 0)) ∷ (codes "$t", number (pos 0)) ∷ (codes "$preview", boolean false)
        ∷ []) ∷ []) }
    ensures memory { IfErr result (λ e. e ≡ Memory) }
{
    frames.set(b"$fn", number(0))?;
    frames.set(b"$fa", number(12_000_000))?;
    frames.set(b"$fs", number(2_000_000))?;
    frames.set(b"$children", number(0))?;
    frames.set(b"$t", number(0))?;
    frames.set(b"$preview", Value::Bool(false))?;
    Ok(())
}

/// The frame of the `$` names at the start of a program.
fn first_dollars<'p>(alloc: Global) -> Result<Frames<'p>, EvalFault>
    ensures frame { IfOk result (λ f. stored f ≡ outermost
        ((codes "$fn", number (pos 0)) ∷ (codes "$fa", number (pos 12000000)) ∷ (codes "$fs", number (pos 2000000))
        ∷ (codes "$children", number (pos 0)) ∷ (codes "$t", number (pos 0)) ∷ (codes "$preview", boolean false)
        ∷ []) ∷ []) }
    ensures memory { IfErr result (λ e. e ≡ Memory) }
{
    let mut frames = outermost(alloc)?;
    set_dollars(&mut frames)?;
    Ok(frames)
}

/// The machine before a program: the names outside of it, and all limits whole.
#[tactic(auto, using(crate::proofs::FirstFrames::first), unfolding(scad_machine::specs::Machine::held, scad_machine::specs::Machine::env_in, scad_machine::specs::Machine::along_in, scad_machine::specs::Machine::state_of))]
pub(crate) fn first_machine<'p>(alloc: Global) -> Result<Machine<'p>, EvalFault>
    ensures env { IfOk result (λ m. env_in (held m) ≡ first_env) }
    ensures along { IfOk result (λ m. along_in (held m) ≡ first_along) }
    ensures depth { IfOk result (λ m. (held m).depth ≡ depth_limit) }
    ensures state { IfOk result (λ m. state_of m ≡ start) }
    ensures memory { IfErr result (λ e. e ≡ Memory) }
{
    let frames = first_names(alloc)?;
    let along = first_dollars(alloc)?;
    Ok(Machine {
        frames,
        along,
        here: 0,
        steps_left: STEP_LIMIT,
        depth_left: DEPTH_LIMIT,
        leaves: 0,
        triangles: 0,
        profiles: Vec::new(alloc),
        echoes: Vec::new(alloc),
    })
}

/// The tree of a program, in the frames before it: the frames of its scope are opened, and nothing waits for the
/// trees of its statements.
fn tree_of<'p>(alloc: Global, scope: &'p Scope, m: &mut Machine<'p>) -> Result<Tree, EvalFault>
    requires env { env_in (held m.old) ≡ first_env }
    requires along { along_in (held m.old) ≡ first_along }
    requires depth { (held m.old).depth ≡ depth_limit }
    ensures { Does solid_of (outcome_of (items scope.now.items) (state_of m.old)) result (state_of m.new) }
{
    let home = here(m);
    open_scope(alloc, home, scope, m)?;
    let mut stack = Stack::new(alloc);
    run(Focus::Members(scope, 0), &mut stack, m)
}

/// What a machine gives that made a tree or not.
#[tactic(auto, unfolding(scad_machine::specs::Machine::state_of))]
fn answer(tree: Result<Tree, EvalFault>, echoes: Vec<Text>) -> Result<Model, ModelEnd>
    ensures { (s : State) (outcome : Outcome Solid) → s.echoes ≡ echoes.items
        → Does solid_of outcome tree s → Makes outcome result }
{
    match tree {
        Ok(tree) => Ok(Model { tree, echoes }),
        Err(fault) => Err(ModelEnd { fault, echoes }),
    }
}

/// What a program makes in the machine before it.
#[tactic(auto, unfolding(scad_members::specs::Meaning::means))]
fn made_in<'p>(alloc: Global, program: &'p Program, m: Machine<'p>) -> Result<Model, ModelEnd>
    requires env { env_in (held m) ≡ first_env }
    requires along { along_in (held m) ≡ first_along }
    requires depth { (held m).depth ≡ depth_limit }
    requires state { state_of m ≡ start }
    ensures { Makes (means (program_of program.now)) result }
{
    let mut machine = m;
    let tree = tree_of(alloc, &program.scope, &mut machine);
    answer(tree, echoes_of(machine))
}

/// The lines of `echo`.
#[tactic(auto, unfolding(scad_machine::specs::Machine::state_of))]
fn echoes_of(m: Machine) -> Vec<Text>
    ensures { result.items ≡ (state_of m.entry).echoes }
{
    m.echoes
}

/// What a program makes, or its first fault or budget.
pub fn model(alloc: Global, program: &Program) -> Result<Model, ModelEnd>
    ensures { Makes (means (program_of program.now)) result }
{
    match first_machine(alloc) {
        Ok(m) => made_in(alloc, program, m),
        Err(fault) => Err(ModelEnd {
            fault,
            echoes: Vec::new(alloc),
        }),
    }
}
