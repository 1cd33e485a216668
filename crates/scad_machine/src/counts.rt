//! Steps, made values, lines and names of an evaluation.

ghost use Rattle.std.specs.Prelude.{◌≡◌, ◌+◌, ◌≤◌, OnOk};
ghost use Rattle.scad_value.specs.View.{datum_of};
ghost use Rattle.scad_machine.specs.Answers.{Does, nothing};
ghost use Rattle.scad_machine.specs.Machine.{held, state_of};
ghost use Rattle.scad_machine.specs.State.{State, take, step, make, say};

use crate::fault::EvalFault;
use crate::machine::{Machine, NESTING_LIMIT};
use scad_fault::{Budget, BudgetKind, Place};
use scad_value::{Value, encoded, made, nesting};
use std::alloc::Global;

impl<'p> Machine<'p> {
    /// Takes so many steps.
    #[inline(always)]
    #[tactic(auto, unfolding(crate::specs::Machine::state_of, crate::specs::Machine::held, crate::specs::State::take, crate::specs::State::over))]
    pub fn take(&mut self, count: u64, at: Place) -> Result<(), EvalFault>
        ensures does { Does nothing (take count at (state_of self.old)) result (state_of self.new) }
        ensures kept { held self.new ≡ held self.old }
        ensures less { OnOk result (self.new.steps_left + count ≡ self.old.steps_left) }
    {
        if u64::from(self.steps_left) < count {
            return Err(EvalFault::Over(Budget::placed(BudgetKind::Steps, at)));
        }
        self.steps_left -= count as u32;
        Ok(())
    }

    /// Takes the step of a node that begins.
    #[inline(always)]
    #[tactic(auto, unfolding(crate::specs::State::step))]
    pub fn step(&mut self, at: Place) -> Result<(), EvalFault>
        ensures does { Does nothing (step at (state_of self.old)) result (state_of self.new) }
        ensures kept { held self.new ≡ held self.old }
        ensures less { OnOk result (self.new.steps_left + 1 ≡ self.old.steps_left) }
    {
        self.take(1, at)
    }

    /// Judges a value that was made, and takes its steps.
    #[inline(always)]
    #[tactic(auto, unfolding(crate::specs::State::make, crate::specs::State::over, crate::specs::State::take, crate::specs::Machine::state_of))]
    pub fn make(&mut self, at: Place, value: Value) -> Result<Value, EvalFault>
        ensures does { Does datum_of (make at (datum_of value) (state_of self.old)) result (state_of self.new) }
        ensures kept { held self.new ≡ held self.old }
        ensures less { OnOk result (self.new.steps_left ≤ self.old.steps_left) }
    {
        if nesting(&value) > NESTING_LIMIT {
            return Err(EvalFault::Over(Budget::placed(BudgetKind::Depth, at)));
        }
        self.take(made(&value), at)?;
        Ok(value)
    }

    /// Writes a line, and takes its steps.
    #[tactic(auto, unfolding(crate::specs::State::say, crate::specs::Machine::state_of, crate::specs::Machine::held))]
    pub(crate) fn say(&mut self, alloc: Global, at: Place, line: &[char]) -> Result<(), EvalFault>
        ensures does { Does nothing (say at line.now (state_of self.old)) result (state_of self.new) }
        ensures kept { held self.new ≡ held self.old }
        ensures less { OnOk result (self.new.steps_left ≤ self.old.steps_left) }
    {
        let text = encoded(alloc, line)?;
        self.echoes.push(text)?;
        self.take(line.len() as u64, at)
    }
}
