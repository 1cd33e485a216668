//! Values of one kind.

ghost use Rattle.std.specs.Prelude.{◌≡◌, false, IfSome, IfNone};
ghost use Rattle.scad_value.specs.Datum.{number, vector};
ghost use Rattle.scad_value.specs.Kinds.{is_number, is_vector};
ghost use Rattle.scad_value.specs.View.{datum_of, elements};

use crate::value::Value;
use scad_num::Num;

/// The number, if the value is one.
pub fn number_of(v: &Value) -> Option<Num>
    ensures number { IfSome result (λ n. datum_of v.now ≡ number n) }
    ensures other { IfNone result (is_number (datum_of v.now) ≡ false) }
{
    match v {
        Value::Number(n) => Some(*n),
        _ => None,
    }
}

/// The elements, if the value is a vector.
#[tactic(auto, using(crate::proofs::Rows::at_vector))]
pub fn elements_of(v: &Value) -> Option<&[Value]>
    ensures vector { IfSome result (λ all. datum_of v.now ≡ vector (elements all.now)) }
    ensures other { IfNone result (is_vector (datum_of v.now) ≡ false) }
{
    match v {
        Value::List(all) => Some(all.as_slice()),
        _ => None,
    }
}
