//! The negative of a value.

ghost use Rattle.std.specs.Prelude.{◌≡◌, IfOk, IfErr, IsTrue};
ghost use Rattle.scad_value.specs.Memory.{is_list};
ghost use Rattle.scad_value.specs.Negative.{negative, negatives};
ghost use Rattle.scad_value.specs.View.{datum_of, elements};

use crate::value::{Value, Values};
use std::alloc::{AllocError, Global};

/// Of a number, and of each element of a vector.
#[cycle(negative)]
#[tactic(auto, using(crate::proofs::Rows::at_vector))]
pub(crate) fn negative(alloc: Global, a: &Value) -> Result<Value, AllocError>
    ensures value { IfOk result (λ v. datum_of v ≡ negative (datum_of a.now)) }
    ensures memory { IfErr result (λ _. IsTrue (is_list (negative (datum_of a.now)))) }
{
    match a {
        Value::Number(n) => Ok(Value::Number(n.neg())),
        Value::List(all) => match negatives(alloc, all.as_slice()) {
            Ok(made) => Value::vector(alloc, made),
            Err(e) => Err(e),
        },
        _ => Ok(Value::Undef),
    }
}

#[cycle(negative)]
fn negatives(alloc: Global, all: &[Value]) -> Result<Values, AllocError>
    ensures { IfOk result (λ made. elements made.items ≡ negatives (elements all.now)) }
{
    let mut made = Vec::with_capacity(alloc, all.len())?;
    'elements: for v in all {
        made.push(negative(alloc, v)?)?;
    }
    Ok(made)
}
