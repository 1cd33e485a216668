//! Frames that are opened for calls, `let` and `for`.

ghost use Rattle.std.specs.Prelude.{◌≡◌, length, map, None, option_map, IfOk, OnOk};
ghost use Rattle.scad_ast.specs.Scope.{parameter};
ghost use Rattle.scad_ast.specs.View.{arguments};
ghost use Rattle.scad_scope.specs.View.{stored, children_stored};
ghost use Rattle.scad_value.specs.View.{datum_of, data_in};
ghost use Rattle.scad_machine.specs.Answers.{Does, nothing, done_at};
ghost use Rattle.scad_machine.specs.Arguments.{given, set_all};
ghost use Rattle.scad_machine.specs.Parameters.{missing, parameter_names};
ghost use Rattle.scad_machine.specs.Machine.{held, env_in, along_in, state_of};
ghost use Rattle.scad_machine.specs.OpenFrames.{last_of, opened, set_in_last, set_all_in_last, with_count, left, bound_in, outer, IsInner};
ghost use Rattle.scad_machine.specs.Variables.{empty, within};
ghost use Rattle.scad_machine.specs.Variables.{set as set_name};
ghost use Rattle.scad_machine.specs.View.{values_in};

use crate::fault::EvalFault;
use crate::invocation::{Callee, Invocation};
use crate::machine::Machine;
use crate::names::is_dollar;
use crate::parameter_values::ParameterValues;
use crate::parameters::{given, missing, number_of_children};
use scad_ast::Param;
use scad_scope::{Frames, Kept};
use scad_value::Value;
use std::alloc::Global;

/// The frames of a call before its defaults: the parameters that take one, the number of its frame, and
/// of that from which names were sought before.
#[derive(Drop)]
pub struct CallFrames<'p> {
    pub missing: Vec<&'p Param>,
    pub inner: u32,
    pub back: u32,
}

/// The number of the last frame, where there is one.
#[tactic(auto, using(crate::proofs::OpenFrames::lasts))]
pub fn last_of(frames: &Frames) -> Option<u32>
    ensures { result ≡ last_of (stored frames.now) }
{
    let count = frames.len();
    if count == 0 { None } else { Some(count - 1) }
}

impl<'p> Machine<'p> {
    /// How many levels of depth an expression has that is evaluated.
    #[tactic(auto, unfolding(crate::specs::Machine::held))]
    pub fn depth(&self) -> u32
        ensures { result ≡ (held self.now).depth }
    {
        self.depth_left
    }

    /// Opens a frame inside the one of a number, and one for `$` names; names are then sought from the
    /// new one. Gives the number from which they were sought before.
    #[tactic(auto, unfolding(crate::specs::Machine::held, crate::specs::Machine::state_of, crate::specs::OpenFrames::opened))]
    fn enter(&mut self, home: u32, kept: Option<Kept<'p>>) -> Result<u32, EvalFault>
        ensures does { Does nothing (done_at (state_of self.old)) result (state_of self.new) }
        ensures steps { OnOk result (self.new.steps_left ≡ self.old.steps_left) }
        ensures held { OnOk result (held self.new ≡ opened (option_map children_stored kept.entry)
            (length (held self.old).frames) home empty (held self.old)) }
        ensures back { IfOk result (λ back. back ≡ (held self.old).here) }
    {
        let parent = last_of(&self.along);
        let number = self.frames.push(Some(home), None, kept)?;
        self.along.push(parent, None, None)?;
        let back = self.here;
        self.here = number;
        Ok(back)
    }

    /// Opens frames inside those where names are sought. Gives the number of the one before.
    #[tactic(auto, using(crate::proofs::OpenFrames::opening))]
    pub fn open(&mut self) -> Result<u32, EvalFault>
        ensures does { Does nothing (done_at (state_of self.old)) result (state_of self.new) }
        ensures steps { OnOk result (self.new.steps_left ≡ self.old.steps_left) }
        ensures inner { OnOk result (IsInner (held self.new)) }
        ensures bound { OnOk result (bound_in (held self.new) ≡ empty) }
        ensures outer { OnOk result (outer (held self.new) ≡ held self.old) }
        ensures back { IfOk result (λ back. back ≡ (held self.old).here) }
    {
        let home = self.home();
        self.enter(home, None)
    }

    /// The number of the frame from which names are sought.
    #[tactic(auto, unfolding(crate::specs::Machine::held))]
    fn home(&self) -> u32
        ensures { result ≡ (held self.now).here }
    {
        self.here
    }

    /// Opens frames with one name. Gives the number of the frame from which names were sought before.
    #[tactic(auto, using(crate::proofs::OpenFrames::inner))]
    pub fn open_with(&mut self, name: &[u8], value: Value) -> Result<u32, EvalFault>
        ensures does { Does nothing (done_at (state_of self.old)) result (state_of self.new) }
        ensures steps { OnOk result (self.new.steps_left ≡ self.old.steps_left) }
        ensures env { OnOk result (env_in (held self.new)
            ≡ within (env_in (held self.old)) (set_name name.now (datum_of value) empty).names) }
        ensures along { OnOk result (along_in (held self.new)
            ≡ within (along_in (held self.old)) (set_name name.now (datum_of value) empty).dollars) }
        ensures back { IfOk result (λ back. left back (held self.new) ≡ held self.old) }
    {
        let back = self.open()?;
        self.set(name, value)?;
        Ok(back)
    }

    /// Opens the frames of a call, with the parameters that are given; names are sought where the
    /// definition stands, as defaults want it.
    #[tactic(auto, using(crate::proofs::OpenFrames::calling))]
    pub fn call(
        &mut self,
        alloc: Global,
        call: Invocation<'p>,
        found: Vec<Value>,
    ) -> Result<CallFrames<'p>, EvalFault>
        ensures does { Does nothing (done_at (state_of self.old)) result (state_of self.new) }
        ensures steps { OnOk result (self.new.steps_left ≡ self.old.steps_left) }
        ensures held { OnOk result (held self.new ≡ opened (option_map children_stored call.entry.kept)
            call.entry.callee.home call.entry.callee.home (set_all (given (parameter_names call.entry.callee.params.now.items)
            (arguments call.entry.args.now) (data_in found)) empty) (held self.old)) }
        ensures missing { IfOk result (λ c. map (λ p. parameter p.now) c.missing.items
            ≡ missing (given (parameter_names call.entry.callee.params.now.items) (arguments call.entry.args.now) (data_in found))
            (map parameter call.entry.callee.params.now.items)) }
        ensures inner { IfOk result (λ c. c.inner ≡ length (held self.old).frames) }
        ensures back { IfOk result (λ c. c.back ≡ (held self.old).here) }
    {
        let Callee { params, home } = call.callee;
        let got = given(alloc, params, call.args, found)?;
        let missing = missing(alloc, params, &got)?;
        let back = self.enter(home, call.kept)?;
        self.set_all(got)?;
        let inner = self.go(home);
        Ok(CallFrames {
            missing,
            inner,
            back,
        })
    }

    /// Sets names in the last frames of their kinds.
    fn set_all(&mut self, all: ParameterValues<'p>) -> Result<(), EvalFault>
        ensures does { Does nothing (done_at (state_of self.old)) result (state_of self.new) }
        ensures steps { OnOk result (self.new.steps_left ≡ self.old.steps_left) }
        ensures held { OnOk result (held self.new
            ≡ set_all_in_last (values_in all.entry) (held self.old)) }
    {
        'names: for (name, value) in all.into_entries() {
            self.set(name, value)?;
        }
        Ok(())
    }

    /// Sets a name in the last frame of its kind.
    #[tactic(auto, unfolding(crate::specs::Machine::held, crate::specs::Machine::state_of))]
    pub fn set(&mut self, name: &[u8], value: Value) -> Result<(), EvalFault>
        ensures does { Does nothing (done_at (state_of self.old)) result (state_of self.new) }
        ensures steps { OnOk result (self.new.steps_left ≡ self.old.steps_left) }
        ensures held { OnOk result (held self.new
            ≡ set_in_last name.now (datum_of value) (held self.old)) }
    {
        if is_dollar(name) {
            self.along.set(name, value)?;
        } else {
            self.frames.set(name, value)?;
        }
        Ok(())
    }

    /// Where child statements are kept, sets `$children` to their number.
    pub fn count_children(&mut self, kept: Option<Kept<'p>>) -> Result<(), EvalFault>
        ensures does { Does nothing (done_at (state_of self.old)) result (state_of self.new) }
        ensures steps { OnOk result (self.new.steps_left ≡ self.old.steps_left) }
        ensures held { OnOk result (held self.new
            ≡ with_count (option_map children_stored kept.entry) (held self.old)) }
    {
        match kept {
            Some(kept) => self.set(b"$children", number_of_children(kept.scope)),
            None => Ok(()),
        }
    }

    /// Seeks names from another frame, and gives the number of the one before.
    #[tactic(auto, unfolding(crate::specs::Machine::held, crate::specs::Machine::state_of))]
    pub fn go(&mut self, here: u32) -> u32
        ensures same { state_of self.new ≡ state_of self.old }
        ensures steps { self.new.steps_left ≡ self.old.steps_left }
        ensures held { held self.new ≡ record (held self.old) { here = here } }
        ensures back { result ≡ (held self.old).here }
    {
        let back = self.here;
        self.here = here;
        back
    }

    /// Takes the last frames away, and seeks names from a frame again.
    #[tactic(auto, unfolding(crate::specs::Machine::held, crate::specs::Machine::state_of, crate::specs::OpenFrames::left))]
    pub fn leave(&mut self, back: u32)
        ensures same { state_of self.new ≡ state_of self.old }
        ensures steps { self.new.steps_left ≡ self.old.steps_left }
        ensures held { held self.new ≡ left back (held self.old) }
    {
        self.frames.pop();
        self.along.pop();
        self.here = back;
    }
}
