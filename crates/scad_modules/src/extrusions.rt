//! What the arguments of an extrusion say.

ghost use Rattle.std.specs.Prelude.{◌≡◌};
ghost use Rattle.scad_ast.specs.View.{arguments};
ghost use Rattle.scad_value.specs.View.{datum_of, data_of, elements};
ghost use Rattle.scad_modules.specs.Extrusions.{is_number, is_number_if_given, are_two_ones, is_one_scale};
ghost use Rattle.scad_modules.specs.Extrusions.{is_one_scale_if_given, isnt_given, extruded_height};
ghost use Rattle.scad_modules.specs.Extrusions.{height_and_center, is_plain, linear_by, turned_by};
ghost use Rattle.scad_modules.specs.View.{datum_in, fine_at};

use crate::argument::taken;
use crate::fault::ArgumentFault;
use crate::fineness::{Fineness, Resolution};
use crate::reading::{is_true, size};
use crate::shape::resolution_of;
use scad_ast::Arg;
use scad_num::{Num, ONE};
use scad_value::Value;

fn is_number(number: Num, value: &Value) -> bool
    ensures { result ≡ is_number number (datum_of value.now) }
{
    match value {
        Value::Number(given) => given.millionths() == number.millionths(),
        _ => false,
    }
}

fn is_number_if_given(number: Num, given: Option<&Value>) -> bool
    ensures { result ≡ is_number_if_given number (datum_in given.entry) }
{
    match given {
        Some(value) => is_number(number, value),
        None => true,
    }
}

#[tactic(auto, using(scad_value::proofs::Rows::counted, scad_value::proofs::Access::places))]
fn are_two_ones(all: &[Value]) -> bool
    ensures { result ≡ are_two_ones (elements all.now) }
{
    all.len() == 2 && is_number(Num::within(ONE), &all[0]) && is_number(Num::within(ONE), &all[1])
}

/// Whether a scale is the number 1, or two numbers 1.
#[tactic(auto, using(scad_value::proofs::Rows::vector_view))]
fn is_one_scale(value: &Value) -> bool
    ensures { result ≡ is_one_scale (datum_of value.now) }
{
    match value {
        Value::Number(given) => given.millionths() == ONE,
        Value::List(all) => are_two_ones(all.as_slice()),
        _ => false,
    }
}

fn is_one_scale_if_given(given: Option<&Value>) -> bool
    ensures { result ≡ is_one_scale_if_given (datum_in given.entry) }
{
    match given {
        Some(value) => is_one_scale(value),
        None => true,
    }
}

fn isnt_given(given: Option<&Value>) -> bool
    ensures { result ≡ isnt_given (datum_in given.entry) }
{
    given.is_none()
}

/// A height, 100 where nothing is given.
fn extruded_height(given: Option<&Value>) -> Result<Num, ArgumentFault>
    ensures { result ≡ extruded_height (datum_in given.entry) }
{
    match given {
        Some(value) => size(value),
        None => Ok(Num::within(100 * ONE)),
    }
}

fn height_and_center(
    height: Option<&Value>,
    center: Option<&Value>,
) -> Result<(Num, bool), ArgumentFault>
    ensures { result ≡ height_and_center (datum_in height.entry) (datum_in center.entry) }
{
    Ok((extruded_height(height)?, is_true(center)))
}

/// Whether an extrusion is neither twisted nor scaled, and goes upwards.
fn is_plain(args: &[Arg], values: &[Value]) -> bool
    ensures { result ≡ is_plain (arguments args.now) (data_of values.now) }
{
    is_number_if_given(Num::within(0), taken(None, b"twist", args, values))
        && is_one_scale_if_given(taken(None, b"scale", args, values))
        && isnt_given(taken(None, b"v", args, values))
}

/// The height that the arguments of `linear_extrude` say, and whether it is centred. A twist, a scale or a
/// direction is `LeftOut`, a height that is no size `BadArgument`.
#[tactic(auto, unfolding(crate::specs::Extrusions::linear_by))]
pub fn linear_by(args: &[Arg], values: &[Value]) -> Result<(Num, bool), ArgumentFault>
    ensures { result ≡ linear_by (arguments args.now) (data_of values.now) }
{
    if !is_plain(args, values) {
        return Err(ArgumentFault::LeftOut);
    }
    height_and_center(
        taken(Some(0), b"height", args, values),
        taken(Some(1), b"center", args, values),
    )
}

/// The numbers by which the turns of a `rotate_extrude` with these arguments are counted. An angle that
/// isn't 360 is `LeftOut`; where `$fn`, `$fa` or `$fs` is no number it is `BadArgument`.
#[tactic(auto, unfolding(crate::specs::Extrusions::turned_by))]
pub fn turned_by(
    fine: &Fineness,
    args: &[Arg],
    values: &[Value],
) -> Result<Resolution, ArgumentFault>
    ensures { result ≡ turned_by (fine_at fine.now) (arguments args.now) (data_of values.now) }
{
    if !is_number_if_given(Num::within(360 * ONE), taken(None, b"angle", args, values)) {
        return Err(ArgumentFault::LeftOut);
    }
    resolution_of(fine)
}
