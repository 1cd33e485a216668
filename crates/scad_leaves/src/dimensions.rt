//! Solids stand outside of every extrusion, flat shapes inside one.

ghost use Rattle.scad_machine.specs.Answers.{Does, nothing};
ghost use Rattle.scad_machine.specs.State.{State};
ghost use Rattle.scad_leaves.specs.Products.{judge_solid, judge_flat};

use crate::space::Space;
use scad_fault::{FaultKind, Place};
use scad_machine::{EvalFault, fault_at};
use std::alloc::Global;

/// A solid, or an extrusion, stands outside of every extrusion alone: inside one it is refused by MixedDimensions.
#[tactic(auto, unfolding(crate::specs::Products::judge_solid, scad_machine::specs::State::fault))]
pub fn judge_solid(alloc: Global, at: Place, space: Space) -> Result<(), EvalFault>
    ensures { (s : State) → Does nothing (judge_solid at space s) result s }
{
    match space {
        Space::Solid => Ok(()),
        Space::Linear(_, _) => Err(fault_at(alloc, FaultKind::MixedDimensions, at)),
        Space::Turned(_) => Err(fault_at(alloc, FaultKind::MixedDimensions, at)),
    }
}

/// A flat shape stands inside of an extrusion alone.
#[tactic(auto, unfolding(crate::specs::Products::judge_flat, scad_machine::specs::State::fault))]
pub(crate) fn judge_flat(alloc: Global, at: Place, space: Space) -> Result<(), EvalFault>
    ensures { (s : State) → Does nothing (judge_flat at space s) result s }
{
    match space {
        Space::Solid => Err(fault_at(alloc, FaultKind::MixedDimensions, at)),
        Space::Linear(_, _) => Ok(()),
        Space::Turned(_) => Ok(()),
    }
}
