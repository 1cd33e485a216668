//! Vectors that are made at a place.

ghost use Rattle.std.specs.Prelude.{◌≡◌, ◌≤◌, OnOk};
ghost use Rattle.scad_value.specs.Datum.{vector};
ghost use Rattle.scad_value.specs.View.{datum_of};
ghost use Rattle.scad_machine.specs.Answers.{Does};
ghost use Rattle.scad_machine.specs.Machine.{held, state_of};
ghost use Rattle.scad_operations.specs.Parts.{parts_in};
ghost use Rattle.scad_operations.specs.Runs.{as_elements};
ghost use Rattle.scad_machine.specs.State.{make};

use crate::part::Part;
use crate::pieces::values_of;
use scad_fault::Place;
use scad_machine::{EvalFault, Machine};
use scad_value::Value;
use std::alloc::Global;

/// The vector of these parts.
pub fn vector<'p>(
    alloc: Global,
    at: Place,
    found: Vec<Part>,
    m: &mut Machine<'p>,
) -> Result<Value, EvalFault>
    ensures does { Does datum_of (make at (vector (as_elements (parts_in found))) (state_of m.old))
        result (state_of m.new) }
    ensures kept { held m.new ≡ held m.old }
    ensures less { OnOk result (m.new.steps_left ≤ m.old.steps_left) }
{
    let all = values_of(alloc, found)?;
    let value = Value::vector(alloc, all)?;
    m.make(at, value)
}
