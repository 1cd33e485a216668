//! Sums and differences: at two numbers, and at each two elements of two vectors.

ghost use Rattle.std.specs.Prelude.{◌≡◌, Ok, IfOk, IfErr};
ghost use Rattle.scad_value.specs.Actions.{pairing};
ghost use Rattle.scad_value.specs.Elementwise.{by_pairs, by_pairs_of};
ghost use Rattle.scad_value.specs.Faults.{Refuses};
ghost use Rattle.scad_value.specs.Memory.{begins_list, TakesMemoryFor};
ghost use Rattle.scad_value.specs.View.{datum_of, elements};

use crate::elementwise::as_number;
use crate::fault::ValueFault;
use crate::kind::{elements_of, number_of};
use crate::value::{Value, Values};
use scad_num::{Num, NumFault};
use std::alloc::Global;

/// An operation on two numbers.
#[derive(Clone, Copy)]
pub(crate) enum Pairing {
    Sum,
    Difference,
}

impl Pairing {
    fn at(self, a: Num, b: Num) -> Result<Num, NumFault>
        ensures { result ≡ pairing self a b }
    {
        match self {
            Pairing::Sum => a.add(b),
            Pairing::Difference => a.sub(b),
        }
    }
}

/// The operation at two numbers, and at each two elements of two vectors up to the shorter length.
#[cycle(pairs)]
pub(crate) fn by_pairs(
    alloc: Global,
    operation: Pairing,
    a: &Value,
    b: &Value,
) -> Result<Value, ValueFault>
    ensures found { IfOk result
        (λ v. by_pairs (pairing operation) (datum_of a.now) (datum_of b.now) ≡ Ok (datum_of v)) }
    ensures refused { IfErr result
        (Refuses (by_pairs (pairing operation) (datum_of a.now) (datum_of b.now))) }
    ensures memory { TakesMemoryFor
        (begins_list (by_pairs (pairing operation) (datum_of a.now) (datum_of b.now))) result }
{
    match a {
        Value::Number(x) => match number_of(b) {
            Some(y) => as_number(operation.at(*x, y)),
            None => Ok(Value::Undef),
        },
        Value::List(xs) => match elements_of(b) {
            Some(ys) => match by_pairs_of(alloc, operation, xs.as_slice(), ys) {
                Ok(made) => Ok(Value::vector(alloc, made)?),
                Err(fault) => Err(fault),
            },
            None => Ok(Value::Undef),
        },
        _ => Ok(Value::Undef),
    }
}

#[cycle(pairs)]
fn by_pairs_of(
    alloc: Global,
    operation: Pairing,
    xs: &[Value],
    ys: &[Value],
) -> Result<Values, ValueFault>
    ensures found { IfOk result
        (λ made. by_pairs_of (pairing operation) (elements xs.now) (elements ys.now) ≡ Ok (elements made.items)) }
    ensures refused { IfErr result
        (Refuses (by_pairs_of (pairing operation) (elements xs.now) (elements ys.now))) }
{
    let mut made = Vec::new(alloc);
    'pairs: for (i, x) in xs.iter().enumerate() {
        if i >= ys.len() {
            return Ok(made);
        }
        match by_pairs(alloc, operation, x, &ys[i]) {
            Ok(element) => made.push(element)?,
            Err(fault) => return Err(fault),
        }
    }
    Ok(made)
}
