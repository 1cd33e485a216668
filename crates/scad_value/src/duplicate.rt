//! A second value like a given one.

ghost use Rattle.std.specs.Prelude.{◌≡◌, IfOk, IfErr, IsTrue};
ghost use Rattle.scad_value.specs.Memory.{is_list};
ghost use Rattle.scad_value.specs.View.{datum_of};

use crate::value::Value;
use std::alloc::{AllocError, Global};

/// The same value again. Strings and vectors are shared, so it takes the same time for each value, and no memory.
#[inline(always)]
pub fn copy(_alloc: Global, a: &Value) -> Result<Value, AllocError>
    ensures same { IfOk result (λ v. datum_of v ≡ datum_of a.now) }
    ensures memory { IfErr result (λ _. IsTrue (is_list (datum_of a.now))) }
{
    match a {
        Value::Undef => Ok(Value::Undef),
        Value::Bool(b) => Ok(Value::Bool(*b)),
        Value::Number(n) => Ok(Value::Number(*n)),
        Value::Str(chars) => Ok(Value::Str(chars.clone()?)),
        Value::List(all) => Ok(Value::List(all.clone()?)),
        Value::Range(start, step, end) => Ok(Value::Range(*start, *step, *end)),
    }
}
