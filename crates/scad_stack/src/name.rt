//! Names that are read where their variables stand, without a copy of the value: `v[i]`, `v.x`, `len(v)`.

ghost use Rattle.std.specs.Prelude.{◌≡◌, ◌+◌, OnOk};
ghost use Rattle.scad_ast.specs.Tree.{name};
ghost use Rattle.scad_machine.specs.Answers.{Does};
ghost use Rattle.scad_machine.specs.Machine.{held, env_in, along_in, state_of};
ghost use Rattle.scad_machine.specs.Variables.{variable};
ghost use Rattle.scad_stack.specs.Meaning.{value};

use scad_fault::{Budget, BudgetKind, Place};
use scad_machine::{EvalFault, Machine};

/// A name as it is written.
#[derive(Clone, Copy)]
pub struct Name<'p> {
    pub at: Place,
    pub word: &'p [u8],
}

/// The step of a name that is evaluated, with so many levels of depth left.
#[tactic(auto, using(crate::proofs::LoneNames::names), unfolding(scad_machine::specs::State::over))]
pub fn pass_name<'p>(
    at: Place,
    word: &[u8],
    depth: u32,
    m: &mut Machine<'p>,
) -> Result<(), EvalFault>
    ensures does { Does (λ _. variable word.now (env_in (held m.old)) (along_in (held m.old)))
        (value depth (env_in (held m.old)) (along_in (held m.old)) (name at word.now)
        (state_of m.old)) result (state_of m.new) }
    ensures kept { OnOk result (held m.new ≡ held m.old) }
    ensures less { OnOk result (m.new.steps_left + 1 ≡ m.old.steps_left) }
{
    let _bytes = word.len();
    if depth == 0 {
        return Err(EvalFault::Over(Budget::placed(BudgetKind::Depth, at)));
    }
    m.step(at)
}
