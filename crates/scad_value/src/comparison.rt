//! Equality and order of values.

ghost use Rattle.std.specs.Prelude.{◌≡◌};
ghost use Rattle.scad_value.specs.Comparison.{equal, equal_all, order};
ghost use Rattle.scad_value.specs.View.{datum_of, elements};

use crate::kind::{elements_of, number_of};
use crate::value::Value;
use std::cmp::Ordering;

/// Whether the two have the same kind and content.
#[cycle(equal)]
pub fn equal(a: &Value, b: &Value) -> bool
    ensures { result ≡ equal (datum_of a.now) (datum_of b.now) }
{
    match a {
        Value::Undef => match b {
            Value::Undef => true,
            _ => false,
        },
        Value::Bool(x) => match b {
            Value::Bool(y) => *x == *y,
            _ => false,
        },
        Value::Number(x) => match number_of(b) {
            Some(y) => *x == y,
            None => false,
        },
        Value::Str(x) => match b {
            Value::Str(y) => x.as_slice() == y.as_slice(),
            _ => false,
        },
        Value::List(xs) => match elements_of(b) {
            Some(ys) => equal_all(xs.as_slice(), ys),
            None => false,
        },
        Value::Range(start, step, end) => match b {
            Value::Range(s, t, e) => *start == *s && *step == *t && *end == *e,
            _ => false,
        },
    }
}

#[cycle(equal)]
fn equal_all(xs: &[Value], ys: &[Value]) -> bool
    ensures { result ≡ equal_all (elements xs.now) (elements ys.now) }
{
    if xs.len() != ys.len() {
        return false;
    }
    'pairs: for (i, x) in xs.iter().enumerate() {
        if !equal(x, &ys[i]) {
            return false;
        }
    }
    true
}

/// The order of two numbers, two strings or two booleans.
pub(crate) fn order(a: &Value, b: &Value) -> Option<Ordering>
    ensures { result ≡ order (datum_of a.now) (datum_of b.now) }
{
    match a {
        Value::Number(x) => match number_of(b) {
            Some(y) => Some(x.cmp(&y)),
            None => None,
        },
        Value::Str(x) => match b {
            Value::Str(y) => Some(x.as_slice().cmp(&y.as_slice())),
            _ => None,
        },
        Value::Bool(x) => match b {
            Value::Bool(y) => Some(x.cmp(y)),
            _ => None,
        },
        _ => None,
    }
}
