//! An operation on numbers, taken through the elements of a vector.

ghost use Rattle.std.specs.Prelude.{◌≡◌, Ok, IfOk, IfErr};
ghost use Rattle.scad_value.specs.Actions.{action};
ghost use Rattle.scad_value.specs.Elementwise.{as_number, each, each_of};
ghost use Rattle.scad_value.specs.Faults.{Refuses};
ghost use Rattle.scad_value.specs.Memory.{begins_list, TakesMemoryFor, TakesNone};
ghost use Rattle.scad_value.specs.View.{datum_of, elements};

use crate::fault::ValueFault;
use crate::value::{Value, Values};
use scad_num::{Num, NumFault};
use std::alloc::Global;

/// An operation with one number given.
#[derive(Clone, Copy)]
pub(crate) enum Action {
    /// `n * x`
    TimesLeft(Num),
    /// `x * n`
    TimesRight(Num),
    /// `x / n`
    Over(Num),
    /// `n / x`
    Under(Num),
}

impl Action {
    fn at(&self, x: Num) -> Result<Num, NumFault>
        ensures { result ≡ action self.now x }
    {
        match self {
            Action::TimesLeft(n) => (*n).mul(x),
            Action::TimesRight(n) => x.mul(*n),
            Action::Over(n) => x.div(*n),
            Action::Under(n) => (*n).div(x),
        }
    }
}

/// A number as a value.
pub(crate) fn as_number(answer: Result<Num, NumFault>) -> Result<Value, ValueFault>
    ensures found { IfOk result (λ v. as_number answer ≡ Ok (datum_of v)) }
    ensures refused { IfErr result (Refuses (as_number answer)) }
    ensures memory { TakesNone result }
{
    match answer {
        Ok(n) => Ok(Value::Number(n)),
        Err(NumFault::Range) => Err(ValueFault::NumberRange),
        Err(NumFault::ZeroDivisor) => Err(ValueFault::ZeroDivisor),
    }
}

/// The operation at a number and at each element of a vector.
#[cycle(each)]
pub(crate) fn each(alloc: Global, operation: &Action, a: &Value) -> Result<Value, ValueFault>
    ensures found { IfOk result (λ v. each (action operation.now) (datum_of a.now) ≡ Ok (datum_of v)) }
    ensures refused { IfErr result (Refuses (each (action operation.now) (datum_of a.now))) }
    ensures memory { TakesMemoryFor (begins_list (each (action operation.now) (datum_of a.now))) result }
{
    match a {
        Value::Number(x) => as_number(operation.at(*x)),
        Value::List(all) => match each_of(alloc, operation, all.as_slice()) {
            Ok(made) => Ok(Value::vector(alloc, made)?),
            Err(fault) => Err(fault),
        },
        _ => Ok(Value::Undef),
    }
}

#[cycle(each)]
fn each_of(alloc: Global, operation: &Action, all: &[Value]) -> Result<Values, ValueFault>
    ensures found { IfOk result (λ made. each_of (action operation.now) (elements all.now) ≡ Ok (elements made.items)) }
    ensures refused { IfErr result (Refuses (each_of (action operation.now) (elements all.now))) }
{
    let mut made = Vec::with_capacity(alloc, all.len())?;
    'elements: for v in all {
        match each(alloc, operation, v) {
            Ok(element) => made.push(element)?,
            Err(fault) => return Err(fault),
        }
    }
    Ok(made)
}
