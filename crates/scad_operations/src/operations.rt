//! Values of operators and functions, and ranges, at a place in the source.

ghost use Rattle.std.specs.Prelude.{◌≡◌, ◌≢◌, ◌≤◌, IfOk, IfErr, OnOk, Ok, Err};
ghost use Rattle.scad_builtin.specs.Builtin.{builtin};
ghost use Rattle.scad_value.specs.Datum.{number};
ghost use Rattle.scad_value.specs.Operators.{op, unary_op};
ghost use Rattle.scad_value.specs.View.{datum_of, elements};
ghost use Rattle.scad_machine.specs.Answers.{Does};
ghost use Rattle.scad_machine.specs.Machine.{held, state_of};
ghost use Rattle.scad_operations.specs.Values.{operated, called_builtin, ranged, ranged_by_one, member_of};
ghost use Rattle.scad_operations.specs.Runs.{range_of_ends};
ghost use Rattle.scad_machine.specs.State.{State, make, refuses};

use crate::operation::Bounds;
use scad_ast::{BinOp, UnOp};
use scad_builtin::{BuiltinFault, call};
use scad_fault::{FaultKind, Place};
use scad_machine::{EvalFault, Machine, fault_at, named_fault};
use scad_num::{Num, ONE};
use scad_value::{Value, ValueFault, binary, index, unary};
use std::alloc::{AllocError, Global};

/// A value for which there is memory.
pub fn in_memory(value: Result<Value, AllocError>) -> Result<Value, EvalFault>
    ensures ok { IfOk result (λ v. value ≡ Ok v) }
    ensures err { IfErr result (λ e. e ≡ EvalFault.Memory) }
{
    match value {
        Ok(value) => Ok(value),
        Err(_) => Err(EvalFault::Memory),
    }
}

/// The value of an operator between two values.
#[tactic(auto, unfolding(crate::specs::Values::operated, scad_machine::specs::State::fault))]
pub fn binary_at<'p>(
    alloc: Global,
    at: Place,
    kind: BinOp,
    a: &Value,
    b: &Value,
    m: &mut Machine<'p>,
) -> Result<Value, EvalFault>
    ensures does { Does datum_of (operated at (op kind (datum_of a.now) (datum_of b.now))
        (state_of m.old)) result (state_of m.new) }
    ensures kept { held m.new ≡ held m.old }
    ensures less { OnOk result (m.new.steps_left ≤ m.old.steps_left) }
{
    match binary(alloc, kind, a, b) {
        Ok(value) => m.make(at, value),
        Err(ValueFault::ZeroDivisor) => Err(fault_at(alloc, FaultKind::ZeroDivisor, at)),
        Err(ValueFault::NumberRange) => Err(fault_at(alloc, FaultKind::NumberRange, at)),
        Err(ValueFault::Memory) => Err(EvalFault::Memory),
    }
}

/// The value of an operator before a value.
pub(crate) fn unary_at<'p>(
    alloc: Global,
    at: Place,
    kind: UnOp,
    a: &Value,
    m: &mut Machine<'p>,
) -> Result<Value, EvalFault>
    ensures does { Does datum_of (make at (unary_op kind (datum_of a.now)) (state_of m.old))
        result (state_of m.new) }
    ensures kept { held m.new ≡ held m.old }
    ensures less { OnOk result (m.new.steps_left ≤ m.old.steps_left) }
{
    match unary(alloc, kind, a) {
        Ok(value) => m.make(at, value),
        Err(_) => Err(EvalFault::Memory),
    }
}

/// The value of a function of the language.
#[tactic(auto, using(crate::proofs::InPlace::refused), unfolding(crate::specs::Values::called_builtin))]
pub fn builtin_at<'p>(
    alloc: Global,
    at: Place,
    name: &[u8],
    args: &[Value],
    m: &mut Machine<'p>,
) -> Result<Value, EvalFault>
    ensures does { Does datum_of (called_builtin at name.now (builtin name.now (elements args.now))
        (state_of m.old)) result (state_of m.new) }
    ensures kept { held m.new ≡ held m.old }
    ensures less { OnOk result (m.new.steps_left ≤ m.old.steps_left) }
{
    match call(alloc, name, args) {
        Ok(value) => m.make(at, value),
        Err(e) => Err(refusal(alloc, at, name, e)),
    }
}

/// The fault for which a function of the language has no value.
#[tactic(auto, unfolding(crate::specs::Values::called_builtin, scad_machine::specs::State::fault, scad_machine::specs::State::fault_of))]
pub(crate) fn refusal(alloc: Global, at: Place, name: &[u8], e: BuiltinFault) -> EvalFault
    ensures told { (s : State) → result ≢ EvalFault.Memory
        → called_builtin at name.now (Err e) s ≡ refuses result s }
    ensures memory { e ≡ BuiltinFault.Memory → result ≡ EvalFault.Memory }
{
    match e {
        BuiltinFault::UnknownFunction => named_fault(alloc, FaultKind::UnknownFunction, at, name),
        BuiltinFault::LeftOut => named_fault(alloc, FaultKind::LeftOut, at, name),
        BuiltinFault::BadArgument => named_fault(alloc, FaultKind::BadArgument, at, name),
        BuiltinFault::ZeroDivisor => fault_at(alloc, FaultKind::ZeroDivisor, at),
        BuiltinFault::NumberRange => fault_at(alloc, FaultKind::NumberRange, at),
        BuiltinFault::Memory => EvalFault::Memory,
    }
}

/// `[start : end]` of two values.
#[tactic(auto, unfolding(crate::specs::Values::ranged_by_one))]
pub(crate) fn range_by_one(start: &Value, end: &Value) -> Value
    ensures { datum_of result ≡ ranged_by_one (datum_of start.now) (datum_of end.now) }
{
    match start {
        Value::Number(a) => match end {
            Value::Number(b) => range_of_ends(*a, *b),
            _ => Value::Undef,
        },
        _ => Value::Undef,
    }
}

/// The range of two ends with the step 1, the ends exchanged where they are in the wrong order.
fn range_of_ends(a: Num, b: Num) -> Value
    ensures { datum_of result ≡ range_of_ends a b }
{
    let one = Num::within(ONE);
    if b.millionths() < a.millionths() {
        Value::Range(b, one, a)
    } else {
        Value::Range(a, one, b)
    }
}

/// `a.name`.
#[tactic(auto, unfolding(crate::specs::Values::member_of))]
pub(crate) fn member(alloc: Global, a: &Value, name: &[u8]) -> Result<Value, AllocError>
    ensures { IfOk result (λ v. datum_of v ≡ member_of name.now (datum_of a.now)) }
{
    if name == b"x".as_slice() {
        index(alloc, a, &Value::Number(Num::within(0)))
    } else if name == b"y".as_slice() {
        index(alloc, a, &Value::Number(Num::within(ONE)))
    } else if name == b"z".as_slice() {
        index(alloc, a, &Value::Number(Num::within(2_000_000)))
    } else {
        Ok(Value::Undef)
    }
}

/// `[start : step : end]` of three values.
#[tactic(auto, unfolding(crate::specs::Values::ranged, scad_machine::specs::State::fault))]
pub(crate) fn range(
    alloc: Global,
    at: Place,
    bounds: &Bounds,
    end: &Value,
) -> Result<Value, EvalFault>
    ensures { (s : State) → Does datum_of
        (ranged at (datum_of bounds.now.start) (datum_of bounds.now.step) (datum_of end.now) s) result s }
{
    match &bounds.start {
        Value::Number(a) => match &bounds.step {
            Value::Number(s) => match end {
                Value::Number(b) => range_of(alloc, at, *a, *s, *b),
                _ => Ok(Value::Undef),
            },
            _ => Ok(Value::Undef),
        },
        _ => Ok(Value::Undef),
    }
}

#[tactic(auto, unfolding(crate::specs::Values::ranged, scad_machine::specs::State::fault))]
fn range_of(alloc: Global, at: Place, a: Num, s: Num, b: Num) -> Result<Value, EvalFault>
    ensures { (st : State) → Does datum_of (ranged at (number a) (number s) (number b) st) result st }
{
    if s.millionths() == 0 {
        Err(fault_at(alloc, FaultKind::ZeroStep, at))
    } else {
        Ok(Value::Range(a, s, b))
    }
}
