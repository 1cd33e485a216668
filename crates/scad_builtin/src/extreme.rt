//! `min` and `max`.

ghost use Rattle.std.specs.Prelude.{◌≡◌, fold};
ghost use Rattle.std.specs.Int.{int_min, int_max};
ghost use Rattle.scad_value.specs.View.{datum_of, elements};
ghost use Rattle.scad_builtin.specs.Memory.{TakesNone};
ghost use Rattle.scad_builtin.specs.Arguments.{numbers};
ghost use Rattle.scad_builtin.specs.Numbers.{chosen};
ghost use Rattle.scad_builtin.specs.Vectors.{choices_from, choices};

use crate::argument::amount;
use crate::fault::BuiltinFault;
use scad_num::Num;
use scad_value::Value;

/// The elements of the first argument, where it is a vector, else the arguments.
#[tactic(auto, using(scad_value::proofs::Rows::vector_view))]
fn choices_from<'a>(first: &'a Value, args: &'a [Value]) -> &'a [Value]
    ensures { elements result.now ≡ choices_from (datum_of first.now) (elements args.now) }
{
    match first {
        Value::List(all) => all.as_slice(),
        _ => args,
    }
}

/// What the least or greatest is chosen from.
pub(crate) fn choices(args: &[Value]) -> &[Value]
    ensures { elements result.now ≡ choices (elements args.now) }
{
    match args {
        [first, ..] => choices_from(first, args),
        [] => args,
    }
}

fn lesser(a: Num, b: Num) -> Num
    ensures { result ≡ int_min a b }
{
    Num::within(a.millionths().min(b.millionths()))
}

fn greater(a: Num, b: Num) -> Num
    ensures { result ≡ int_max a b }
{
    Num::within(a.millionths().max(b.millionths()))
}

/// The least of a number and more.
fn least_onto(first: Num, more: &[Value]) -> Num
    ensures { result ≡ fold int_min first (numbers (elements more.now)) }
{
    let mut least = first;
    for value in more {
        least = lesser(least, amount(value));
    }
    least
}

/// The greatest of a number and more.
fn greatest_onto(first: Num, more: &[Value]) -> Num
    ensures { result ≡ fold int_max first (numbers (elements more.now)) }
{
    let mut greatest = first;
    for value in more {
        greatest = greater(greatest, amount(value));
    }
    greatest
}

pub(crate) fn least(values: &[Value]) -> Result<Num, BuiltinFault>
    ensures value { result ≡ chosen int_min (numbers (elements values.now)) }
    ensures memory { TakesNone result }
{
    match values {
        [first, more @ ..] => Ok(least_onto(amount(first), more)),
        [] => Err(BuiltinFault::BadArgument),
    }
}

pub(crate) fn greatest(values: &[Value]) -> Result<Num, BuiltinFault>
    ensures value { result ≡ chosen int_max (numbers (elements values.now)) }
    ensures memory { TakesNone result }
{
    match values {
        [first, more @ ..] => Ok(greatest_onto(amount(first), more)),
        [] => Err(BuiltinFault::BadArgument),
    }
}
