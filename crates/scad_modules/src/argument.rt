//! The arguments that parameters take.

ghost use Rattle.std.specs.Prelude.{◌≡◌, ◌<◌, ◌^◌, Some, None};
ghost use Rattle.scad_ast.specs.View.{arguments};
ghost use Rattle.scad_value.specs.View.{datum_of, data_of};
ghost use Rattle.scad_modules.specs.Arguments.{is_placed, taken_by, unnamed_before_next, taken_from, if_given, taken};
ghost use Rattle.scad_modules.specs.View.{datum_in};

use scad_ast::Arg;
use scad_value::Value;

/// Whether an unnamed argument, before which so many unnamed ones stand, goes to the parameter.
fn is_placed(i: usize, place: Option<usize>) -> bool
    ensures { result ≡ is_placed i place }
{
    match place {
        Some(place) => i == place,
        None => false,
    }
}

/// What the parameter takes after an argument, from what it had before it.
fn taken_by<'a>(
    place: Option<usize>,
    name: &[u8],
    i: usize,
    arg: &Arg,
    value: &'a Value,
    found: Option<&'a Value>,
) -> Option<&'a Value>
    ensures { datum_in result ≡ taken_by place name.now i arg.now.name (datum_of value.now) (datum_in found.entry) }
{
    match &arg.name {
        Some(word) => {
            if name == word.as_slice() {
                Some(value)
            } else {
                found
            }
        }
        None => {
            if is_placed(i, place) {
                Some(value)
            } else {
                found
            }
        }
    }
}

/// How many unnamed arguments stand before what follows the argument.
fn unnamed_before_next(i: usize, arg: &Arg) -> usize
    requires { i < 2 ^ 63 }
    ensures { result ≡ unnamed_before_next i arg.now.name }
{
    match &arg.name {
        Some(_) => i,
        None => i + 1,
    }
}

/// What the parameter takes of all arguments.
fn last_taken<'a>(
    place: Option<usize>,
    name: &[u8],
    args: &[Arg],
    values: &'a [Value],
) -> Option<&'a Value>
    ensures { datum_in result ≡ taken_from place name.now 0 (arguments args.now) (data_of values.now) None }
{
    let mut found = None;
    let mut i = 0;
    let mut k = 0;
    'arguments: for arg in args {
        if k >= values.len() {
            return found;
        }
        found = taken_by(place, name, i, arg, &values[k], found);
        i = unnamed_before_next(i, arg);
        k += 1;
    }
    found
}

/// A value other than `undef`.
fn defined(value: &Value) -> Option<&Value>
    ensures { datum_in result ≡ if_given (Some (datum_of value.now)) }
{
    match value {
        Value::Undef => None,
        _ => Some(value),
    }
}

fn if_given(found: Option<&Value>) -> Option<&Value>
    ensures { datum_in result ≡ if_given (datum_in found.entry) }
{
    match found {
        Some(value) => defined(value),
        None => None,
    }
}

/// The value of the parameter of a place in the order, where it has one, and a name, where one is given:
/// `undef` counts as not given, and of several arguments the last counts.
#[tactic(auto, unfolding(crate::specs::Arguments::taken))]
pub fn taken<'a>(
    place: Option<usize>,
    name: &[u8],
    args: &[Arg],
    values: &'a [Value],
) -> Option<&'a Value>
    ensures { datum_in result ≡ taken place name.now (arguments args.now) (data_of values.now) }
{
    if_given(last_taken(place, name, args, values))
}
