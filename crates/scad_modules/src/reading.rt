//! What values are to the modules of the language.

ghost use Rattle.std.specs.Prelude.{◌≡◌, ◌<◌};
ghost use Rattle.std.specs.Result.{result_map_both};
ghost use Rattle.scad_num.specs.Rounding.{half_away};
ghost use Rattle.scad_value.specs.View.{datum_of, elements};
ghost use Rattle.scad_modules.specs.Reading.{as_number, as_vector, if_size, size_of, needed, truth_of, number_at, triple_at};
ghost use Rattle.scad_modules.specs.Reading.{up_to_three, coordinates, exactly_three, point_of, half_or, radius_or};
ghost use Rattle.scad_modules.specs.FlatShapes.{pair_at, exactly_two, pair_of};
ghost use Rattle.scad_modules.specs.View.{datum_in};

use crate::fault::ArgumentFault;
use scad_num::{Num, half_away};
use scad_value::{Value, truth};

/// A point, or a vector of three coordinates.
pub(crate) type Triple = (Num, Num, Num);

/// A point, or a vector of two coordinates.
pub(crate) type Pair = (Num, Num);

pub(crate) fn number(value: &Value) -> Result<Num, ArgumentFault>
    ensures { result ≡ as_number (datum_of value.now) }
{
    match value {
        Value::Number(n) => Ok(*n),
        _ => Err(ArgumentFault::BadArgument),
    }
}

/// The elements of a vector.
#[tactic(auto, using(scad_value::proofs::Rows::vector_view))]
pub(crate) fn vector(value: &Value) -> Result<&[Value], ArgumentFault>
    ensures { result_map_both (λ all. elements all.now) (λ e. e) result ≡ as_vector (datum_of value.now) }
{
    match value {
        Value::List(all) => Ok(all.as_slice()),
        _ => Err(ArgumentFault::BadArgument),
    }
}

/// A number that isn't negative.
pub(crate) fn if_size(n: Num) -> Result<Num, ArgumentFault>
    ensures { result ≡ if_size n }
{
    if n.millionths() < 0 {
        Err(ArgumentFault::BadArgument)
    } else {
        Ok(n)
    }
}

pub(crate) fn size(value: &Value) -> Result<Num, ArgumentFault>
    ensures { result ≡ size_of (datum_of value.now) }
{
    if_size(number(value)?)
}

/// A value that has to be given.
pub(crate) fn needed(given: Option<&Value>) -> Result<&Value, ArgumentFault>
    ensures { result_map_both (λ v. datum_of v.now) (λ e. e) result ≡ needed (datum_in given.entry) }
{
    match given {
        Some(value) => Ok(value),
        None => Err(ArgumentFault::BadArgument),
    }
}

/// The truth of a value; false where none is given.
pub(crate) fn is_true(given: Option<&Value>) -> bool
    ensures { result ≡ truth_of (datum_in given.entry) }
{
    match given {
        Some(value) => truth(value),
        None => false,
    }
}

/// The number at a place, or another one where nothing stands there.
#[tactic(auto, using(scad_value::proofs::Rows::counted, scad_value::proofs::Access::places))]
pub(crate) fn number_at(all: &[Value], i: usize, missing: Num) -> Result<Num, ArgumentFault>
    ensures { result ≡ number_at (elements all.now) i missing }
{
    if i < all.len() {
        number(&all[i])
    } else {
        Ok(missing)
    }
}

fn triple_at(all: &[Value], missing: Num) -> Result<Triple, ArgumentFault>
    ensures { result ≡ triple_at (elements all.now) missing }
{
    let x = number_at(all, 0, missing)?;
    let y = number_at(all, 1, missing)?;
    let z = number_at(all, 2, missing)?;
    Ok((x, y, z))
}

/// One to three numbers; what is missing is another number.
#[tactic(auto, using(scad_value::proofs::Rows::counted))]
fn up_to_three(missing: Num, all: &[Value]) -> Result<Triple, ArgumentFault>
    ensures { result ≡ up_to_three missing (elements all.now) }
{
    if 1 <= all.len() && all.len() <= 3 {
        triple_at(all, missing)
    } else {
        Err(ArgumentFault::BadArgument)
    }
}

pub(crate) fn coordinates(missing: Num, value: &Value) -> Result<Triple, ArgumentFault>
    ensures { result ≡ coordinates missing (datum_of value.now) }
{
    up_to_three(missing, vector(value)?)
}

#[tactic(auto, using(scad_value::proofs::Rows::counted))]
fn exactly_three(all: &[Value]) -> Result<Triple, ArgumentFault>
    ensures { result ≡ exactly_three (elements all.now) }
{
    if all.len() == 3 {
        triple_at(all, Num::within(0))
    } else {
        Err(ArgumentFault::BadArgument)
    }
}

/// Three numbers.
pub(crate) fn point(value: &Value) -> Result<Triple, ArgumentFault>
    ensures { result ≡ point_of (datum_of value.now) }
{
    exactly_three(vector(value)?)
}

fn pair_at(all: &[Value]) -> Result<Pair, ArgumentFault>
    ensures { result ≡ pair_at (elements all.now) }
{
    let x = number_at(all, 0, Num::within(0))?;
    let y = number_at(all, 1, Num::within(0))?;
    Ok((x, y))
}

#[tactic(auto, using(scad_value::proofs::Rows::counted))]
fn exactly_two(all: &[Value]) -> Result<Pair, ArgumentFault>
    ensures { result ≡ exactly_two (elements all.now) }
{
    if all.len() == 2 {
        pair_at(all)
    } else {
        Err(ArgumentFault::BadArgument)
    }
}

/// Two numbers.
pub(crate) fn pair(value: &Value) -> Result<Pair, ArgumentFault>
    ensures { result ≡ pair_of (datum_of value.now) }
{
    exactly_two(vector(value)?)
}

/// Half of a diameter.
fn half(diameter: Num) -> Num
    ensures { result ≡ half_away diameter 2 }
{
    Num::within(half_away(i128::from(diameter.millionths()), 2) as i64)
}

/// Half a diameter, where it is given; else another radius.
pub(crate) fn half_or(
    given: Option<&Value>,
    other: Result<Num, ArgumentFault>,
) -> Result<Num, ArgumentFault>
    ensures { result ≡ half_or (datum_in given.entry) other }
{
    match given {
        Some(value) => Ok(half(size(value)?)),
        None => other,
    }
}

/// A radius, where it is given; else another one.
pub(crate) fn radius_or(
    given: Option<&Value>,
    other: Result<Num, ArgumentFault>,
) -> Result<Num, ArgumentFault>
    ensures { result ≡ radius_or (datum_in given.entry) other }
{
    match given {
        Some(value) => size(value),
        None => other,
    }
}
