//! What gives a value as soon as its last operand has one.

ghost use Rattle.std.specs.Prelude.{◌≡◌, ◌≤◌, OnOk};
ghost use Rattle.scad_value.specs.View.{datum_of};
ghost use Rattle.scad_machine.specs.Answers.{Does};
ghost use Rattle.scad_machine.specs.Machine.{held, state_of};
ghost use Rattle.scad_operations.specs.Operation.{operates};

use crate::loans::index_in;
use crate::operations::{in_memory, member, range, range_by_one, unary_at};
use scad_ast::UnOp;
use scad_fault::Place;
use scad_machine::{EvalFault, Machine};
use scad_value::{Value, index, truth};
use std::alloc::Global;

/// The start and the step of a range, which is `undef` until it has its value.
#[derive(Drop)]
pub struct Bounds {
    pub start: Value,
    pub step: Value,
}

/// What waits for its last operand.
#[derive(Drop)]
pub enum Operation<'p> {
    /// A range without a step, with its start.
    Ends(Value),
    /// A range with its start and its step.
    Stepped(Place, Box<Bounds>),
    /// An operator before a value.
    Unary(Place, UnOp),
    /// A value's truth.
    Truth,
    /// A value that is indexed.
    Indexed(Value),
    /// A variable that is indexed.
    IndexedName(&'p [u8]),
    /// A member.
    Member(&'p [u8]),
}

/// What an operation gives with its last operand.
#[inline(always)]
#[tactic(auto, unfolding(crate::specs::Operation::operates))]
pub fn operate<'p>(
    alloc: Global,
    operation: Operation<'p>,
    v: Value,
    m: &mut Machine<'p>,
) -> Result<Value, EvalFault>
    ensures does { Does datum_of (operates operation.entry (held m.old) (datum_of v) (state_of m.old))
        result (state_of m.new) }
    ensures kept { held m.new ≡ held m.old }
    ensures less { OnOk result (m.new.steps_left ≤ m.old.steps_left) }
{
    match operation {
        Operation::Ends(start) => Ok(range_by_one(&start, &v)),
        Operation::Stepped(at, bounds) => range(alloc, at, &bounds, &v),
        Operation::Unary(at, op) => unary_at(alloc, at, op, &v, m),
        Operation::Truth => Ok(Value::Bool(truth(&v))),
        Operation::Indexed(of) => in_memory(index(alloc, &of, &v)),
        Operation::IndexedName(word) => in_memory(index_in(alloc, m.seek(word), &v)),
        Operation::Member(word) => in_memory(member(alloc, &v, word)),
    }
}
