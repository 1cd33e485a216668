//! The kind of a value.

ghost use Rattle.std.specs.Prelude.{◌≡◌};
ghost use Rattle.scad_value.specs.View.{datum_of};
ghost use Rattle.scad_value.specs.Kinds.{is_number, is_vector};
ghost use Rattle.scad_builtin.specs.Kinds.{is_undef, is_boolean, is_string};

use scad_value::Value;

pub(crate) fn is_undef(value: &Value) -> bool
    ensures { result ≡ is_undef (datum_of value.now) }
{
    matches!(value, Value::Undef)
}

pub(crate) fn is_boolean(value: &Value) -> bool
    ensures { result ≡ is_boolean (datum_of value.now) }
{
    matches!(value, Value::Bool(_))
}

pub(crate) fn is_number(value: &Value) -> bool
    ensures { result ≡ is_number (datum_of value.now) }
{
    matches!(value, Value::Number(_))
}

pub(crate) fn is_string(value: &Value) -> bool
    ensures { result ≡ is_string (datum_of value.now) }
{
    matches!(value, Value::Str(_))
}

pub(crate) fn is_vector(value: &Value) -> bool
    ensures { result ≡ is_vector (datum_of value.now) }
{
    matches!(value, Value::List(_))
}
