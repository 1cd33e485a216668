//! The arguments of a function, by their kind.

ghost use Rattle.std.specs.Prelude.{◌≡◌};
ghost use Rattle.std.specs.Result.{result_map_both};
ghost use Rattle.scad_value.specs.Products.{all_numbers, amount};
ghost use Rattle.scad_value.specs.View.{datum_of, elements};
ghost use Rattle.scad_builtin.specs.Memory.{TakesNone};
ghost use Rattle.scad_builtin.specs.Arguments.{first_of, second_of, as_number};
ghost use Rattle.scad_builtin.specs.Arguments.{numbers, as_numbers, as_number_vector, as_string};
ghost use Rattle.scad_builtin.specs.Arguments.{first_number, first_string};
ghost use Rattle.scad_builtin.specs.Arguments.{first_numbers, second_numbers};

use crate::fault::BuiltinFault;
use crate::kind::is_number;
use scad_num::Num;
use scad_value::Value;

/// The first argument.
pub(crate) fn first(args: &[Value]) -> Result<&Value, BuiltinFault>
    ensures value { result_map_both (λ v. datum_of v.now) (λ e. e) result
        ≡ first_of (elements args.now) }
    ensures memory { TakesNone result }
{
    match args {
        [first, ..] => Ok(first),
        [] => Err(BuiltinFault::BadArgument),
    }
}

/// The second argument.
fn second(args: &[Value]) -> Result<&Value, BuiltinFault>
    ensures value { result_map_both (λ v. datum_of v.now) (λ e. e) result
        ≡ second_of (elements args.now) }
    ensures memory { TakesNone result }
{
    match args {
        [_, more @ ..] => first(more),
        [] => Err(BuiltinFault::BadArgument),
    }
}

/// The number that a value is.
fn number(value: &Value) -> Result<Num, BuiltinFault>
    ensures value { result ≡ as_number (datum_of value.now) }
    ensures memory { TakesNone result }
{
    match value {
        Value::Number(n) => Ok(*n),
        _ => Err(BuiltinFault::BadArgument),
    }
}

/// The number that a value is, 0 for one of another kind.
pub(crate) fn amount(value: &Value) -> Num
    ensures { result ≡ amount (datum_of value.now) }
{
    match value {
        Value::Number(n) => *n,
        _ => Num::within(0),
    }
}

/// Whether all values are numbers.
fn all_numbers(values: &[Value]) -> bool
    ensures { result ≡ all_numbers (elements values.now) }
{
    for value in values {
        if !is_number(value) {
            return false;
        }
    }
    true
}

/// The values, where all are numbers.
pub(crate) fn numbers(values: &[Value]) -> Result<&[Value], BuiltinFault>
    ensures value { result_map_both (λ all. numbers (elements all.now)) (λ e. e) result
        ≡ as_numbers (elements values.now) }
    ensures memory { TakesNone result }
{
    if all_numbers(values) {
        Ok(values)
    } else {
        Err(BuiltinFault::BadArgument)
    }
}

/// The elements of a vector of numbers.
#[tactic(auto, using(scad_value::proofs::Rows::vector_view))]
fn number_vector(value: &Value) -> Result<&[Value], BuiltinFault>
    ensures value { result_map_both (λ all. numbers (elements all.now)) (λ e. e) result
        ≡ as_number_vector (datum_of value.now) }
    ensures memory { TakesNone result }
{
    match value {
        Value::List(all) => numbers(all.as_slice()),
        _ => Err(BuiltinFault::BadArgument),
    }
}

/// The characters of a string.
fn string(value: &Value) -> Result<&[char], BuiltinFault>
    ensures value { result_map_both (λ chars. chars.now) (λ e. e) result
        ≡ as_string (datum_of value.now) }
    ensures memory { TakesNone result }
{
    match value {
        Value::Str(chars) => Ok(chars.as_slice()),
        _ => Err(BuiltinFault::BadArgument),
    }
}

/// The first argument, a number.
pub(crate) fn first_number(args: &[Value]) -> Result<Num, BuiltinFault>
    ensures value { result ≡ first_number (elements args.now) }
    ensures memory { TakesNone result }
{
    number(first(args)?)
}

/// The characters of the first argument, a string.
pub(crate) fn first_string(args: &[Value]) -> Result<&[char], BuiltinFault>
    ensures value { result_map_both (λ chars. chars.now) (λ e. e) result
        ≡ first_string (elements args.now) }
    ensures memory { TakesNone result }
{
    string(first(args)?)
}

/// The elements of the first argument, a vector of numbers.
pub(crate) fn first_numbers(args: &[Value]) -> Result<&[Value], BuiltinFault>
    ensures value { result_map_both (λ all. numbers (elements all.now)) (λ e. e) result
        ≡ first_numbers (elements args.now) }
    ensures memory { TakesNone result }
{
    number_vector(first(args)?)
}

/// The elements of the second argument, a vector of numbers.
pub(crate) fn second_numbers(args: &[Value]) -> Result<&[Value], BuiltinFault>
    ensures value { result_map_both (λ all. numbers (elements all.now)) (λ e. e) result
        ≡ second_numbers (elements args.now) }
    ensures memory { TakesNone result }
{
    number_vector(second(args)?)
}
