//! `len`.

ghost use Rattle.std.specs.Prelude.{◌≡◌};
ghost use Rattle.std.specs.Result.{result_map_both};
ghost use Rattle.scad_value.specs.View.{datum_of};
ghost use Rattle.scad_builtin.specs.Memory.{TakesNone};
ghost use Rattle.scad_builtin.specs.Numbers.{whole_number};
ghost use Rattle.scad_builtin.specs.Vectors.{length_of};

use crate::fault::BuiltinFault;
use scad_num::{Num, ONE};
use scad_value::Value;

/// A count as a number, where it is in range.
fn whole_number(n: usize) -> Result<Num, BuiltinFault>
    ensures value { result ≡ whole_number n }
    ensures memory { TakesNone result }
{
    Ok(Num::of_wide(n as i128 * i128::from(ONE))?)
}

/// How many elements or characters a value has.
#[tactic(auto, using(scad_value::proofs::Rows::vector_view, scad_value::proofs::Rows::counted))]
pub(crate) fn length_of(value: &Value) -> Result<Value, BuiltinFault>
    ensures value { result_map_both datum_of (λ e. e) result ≡ length_of (datum_of value.now) }
    ensures memory { TakesNone result }
{
    match value {
        Value::List(all) => Ok(Value::Number(whole_number(all.len())?)),
        Value::Str(chars) => Ok(Value::Number(whole_number(chars.as_slice().len())?)),
        _ => Ok(Value::Undef),
    }
}
