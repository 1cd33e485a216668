//! The operators between values and before one.

ghost use Rattle.std.specs.Prelude.{◌≡◌, Ok, IfOk, IfErr, IsTrue};
ghost use Rattle.std.specs.Ordering.{is_lt, is_le, is_gt, is_ge};
ghost use Rattle.scad_value.specs.Comparison.{order};
ghost use Rattle.scad_value.specs.Faults.{Refuses};
ghost use Rattle.scad_value.specs.Memory.{is_list, begins_list, TakesMemoryFor, TakesNone};
ghost use Rattle.scad_value.specs.Operators.{ordered, product, quotient, remainder, op, plus, unary_op};
ghost use Rattle.scad_value.specs.View.{datum_of};
ghost use Rattle.scad_value.specs.declared.fault.ValueFault.TheVariants.{Memory};

use crate::comparison::{equal, order};
use crate::duplicate::copy;
use crate::elementwise::{Action, as_number, each};
use crate::fault::ValueFault;
use crate::kind::{elements_of, number_of};
use crate::matrix_product::product_of_vectors;
use crate::measures::truth;
use crate::negative::negative;
use crate::pairs::{Pairing, by_pairs};
use crate::value::Value;
use scad_ast::{BinOp, UnOp};
use std::alloc::Global;

/// `a * b`
#[tactic(auto, using(crate::proofs::Memory::takings))]
fn product(alloc: Global, a: &Value, b: &Value) -> Result<Value, ValueFault>
    ensures found { IfOk result (λ v. product (datum_of a.now) (datum_of b.now) ≡ Ok (datum_of v)) }
    ensures refused { IfErr result (Refuses (product (datum_of a.now) (datum_of b.now))) }
    ensures memory { TakesMemoryFor (begins_list (product (datum_of a.now) (datum_of b.now))) result }
{
    match a {
        Value::Number(x) => each(alloc, &Action::TimesLeft(*x), b),
        Value::List(xs) => match number_of(b) {
            Some(y) => each(alloc, &Action::TimesRight(y), a),
            None => match elements_of(b) {
                Some(ys) => product_of_vectors(alloc, xs.as_slice(), ys),
                None => Ok(Value::Undef),
            },
        },
        _ => Ok(Value::Undef),
    }
}

/// `a / b`
#[tactic(auto, using(crate::proofs::Memory::takings))]
fn quotient(alloc: Global, a: &Value, b: &Value) -> Result<Value, ValueFault>
    ensures found { IfOk result (λ v. quotient (datum_of a.now) (datum_of b.now) ≡ Ok (datum_of v)) }
    ensures refused { IfErr result (Refuses (quotient (datum_of a.now) (datum_of b.now))) }
    ensures memory { TakesMemoryFor (begins_list (quotient (datum_of a.now) (datum_of b.now))) result }
{
    match a {
        Value::Number(x) => each(alloc, &Action::Under(*x), b),
        Value::List(_) => match number_of(b) {
            Some(y) => each(alloc, &Action::Over(y), a),
            None => Ok(Value::Undef),
        },
        _ => Ok(Value::Undef),
    }
}

/// `a % b`
fn remainder(a: &Value, b: &Value) -> Result<Value, ValueFault>
    ensures found { IfOk result (λ v. remainder (datum_of a.now) (datum_of b.now) ≡ Ok (datum_of v)) }
    ensures refused { IfErr result (Refuses (remainder (datum_of a.now) (datum_of b.now))) }
    ensures memory { TakesNone result }
{
    match a {
        Value::Number(x) => match b {
            Value::Number(y) => as_number((*x).rem(*y)),
            _ => Ok(Value::Undef),
        },
        _ => Ok(Value::Undef),
    }
}

/// `a < b`
fn less(a: &Value, b: &Value) -> Value
    ensures { datum_of result ≡ ordered is_lt (order (datum_of a.now) (datum_of b.now)) }
{
    match order(a, b) {
        Some(o) => Value::Bool(o.is_lt()),
        None => Value::Undef,
    }
}

/// `a <= b`
fn less_or_equal(a: &Value, b: &Value) -> Value
    ensures { datum_of result ≡ ordered is_le (order (datum_of a.now) (datum_of b.now)) }
{
    match order(a, b) {
        Some(o) => Value::Bool(o.is_le()),
        None => Value::Undef,
    }
}

/// `a > b`
fn greater(a: &Value, b: &Value) -> Value
    ensures { datum_of result ≡ ordered is_gt (order (datum_of a.now) (datum_of b.now)) }
{
    match order(a, b) {
        Some(o) => Value::Bool(o.is_gt()),
        None => Value::Undef,
    }
}

/// `a >= b`
fn greater_or_equal(a: &Value, b: &Value) -> Value
    ensures { datum_of result ≡ ordered is_ge (order (datum_of a.now) (datum_of b.now)) }
{
    match order(a, b) {
        Some(o) => Value::Bool(o.is_ge()),
        None => Value::Undef,
    }
}

/// What the operator gives between two values, or the first fault from left to right. `&&` and `||` give the boolean
/// of the truths. It takes no memory for a number or a boolean.
pub fn binary(alloc: Global, kind: BinOp, a: &Value, b: &Value) -> Result<Value, ValueFault>
    ensures found { IfOk result (λ v. op kind (datum_of a.now) (datum_of b.now) ≡ Ok (datum_of v)) }
    ensures refused { IfErr result (Refuses (op kind (datum_of a.now) (datum_of b.now))) }
    ensures memory { TakesMemoryFor (begins_list (op kind (datum_of a.now) (datum_of b.now))) result }
{
    match kind {
        BinOp::Or => Ok(Value::Bool(truth(a) || truth(b))),
        BinOp::And => Ok(Value::Bool(truth(a) && truth(b))),
        BinOp::Eq => Ok(Value::Bool(equal(a, b))),
        BinOp::Ne => Ok(Value::Bool(!equal(a, b))),
        BinOp::Lt => Ok(less(a, b)),
        BinOp::Le => Ok(less_or_equal(a, b)),
        BinOp::Gt => Ok(greater(a, b)),
        BinOp::Ge => Ok(greater_or_equal(a, b)),
        BinOp::Add => by_pairs(alloc, Pairing::Sum, a, b),
        BinOp::Sub => by_pairs(alloc, Pairing::Difference, a, b),
        BinOp::Mul => product(alloc, a, b),
        BinOp::Div => quotient(alloc, a, b),
        BinOp::Rem => remainder(a, b),
    }
}

/// `+a`
#[tactic(auto, using(crate::proofs::Rows::at_vector))]
fn plus(alloc: Global, a: &Value) -> Result<Value, ValueFault>
    ensures found { IfOk result (λ v. datum_of v ≡ plus (datum_of a.now)) }
    ensures memory { IfErr result (λ e. e ≡ Memory) }
    ensures list { IfErr result (λ _. IsTrue (is_list (plus (datum_of a.now)))) }
{
    match a {
        Value::Number(n) => Ok(Value::Number(*n)),
        Value::List(_) => Ok(copy(alloc, a)?),
        _ => Ok(Value::Undef),
    }
}

/// What the operator gives before a value. Want of memory is its only fault.
pub fn unary(alloc: Global, kind: UnOp, a: &Value) -> Result<Value, ValueFault>
    ensures found { IfOk result (λ v. datum_of v ≡ unary_op kind (datum_of a.now)) }
    ensures memory { IfErr result (λ e. e ≡ Memory) }
    ensures list { IfErr result (λ _. IsTrue (is_list (unary_op kind (datum_of a.now)))) }
{
    match kind {
        UnOp::Not => Ok(Value::Bool(!truth(a))),
        UnOp::Plus => plus(alloc, a),
        UnOp::Minus => Ok(negative(alloc, a)?),
    }
}
