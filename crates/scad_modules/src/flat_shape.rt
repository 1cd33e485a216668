//! What the arguments of a flat shape say.

ghost use Rattle.std.specs.Prelude.{◌≡◌, true, IfOk, ◌<◌};
ghost use Rattle.std.specs.List.{list_all};
ghost use Rattle.scad_ast.specs.View.{arguments};
ghost use Rattle.scad_value.specs.View.{datum_of, data_of};
ghost use Rattle.scad_modules.specs.FlatShapes.{both_sizes, same_size, two_sizes, given_flat_sizes, flat_sizes};
ghost use Rattle.scad_modules.specs.FlatShapes.{square_by, circle_by, outlines_of};
ghost use Rattle.scad_modules.specs.Outline.{is_outline};
ghost use Rattle.scad_modules.specs.View.{datum_in, fine_at, outlines, Reads};

use crate::argument::taken;
use crate::fault::ArgumentFault;
use crate::fineness::Fineness;
use crate::module::Flat;
use crate::outline::{Outline, alone};
use crate::polygons::polygon_by;
use crate::reading::{Pair, if_size, is_true, pair};
use crate::shape::{common_radius, fragments};
use scad_ast::Arg;
use scad_num::{Num, ONE};
use scad_value::Value;
use std::alloc::Global;

fn both_sizes(p: Pair) -> Result<Pair, ArgumentFault>
    ensures { result ≡ both_sizes p }
{
    let x = if_size(p.0)?;
    let y = if_size(p.1)?;
    Ok((x, y))
}

/// One size along both axes.
fn same_size(n: Num) -> Result<Pair, ArgumentFault>
    ensures { result ≡ same_size n }
{
    let size = if_size(n)?;
    Ok((size, size))
}

fn two_sizes(value: &Value) -> Result<Pair, ArgumentFault>
    ensures { result ≡ two_sizes (datum_of value.now) }
{
    both_sizes(pair(value)?)
}

/// A number or two numbers, none of them negative.
fn given_flat_sizes(value: &Value) -> Result<Pair, ArgumentFault>
    ensures { result ≡ given_flat_sizes (datum_of value.now) }
{
    match value {
        Value::Number(n) => same_size(*n),
        _ => two_sizes(value),
    }
}

/// The sizes of a square, 1 where nothing is given.
fn flat_sizes(given: Option<&Value>) -> Result<Pair, ArgumentFault>
    ensures { result ≡ flat_sizes (datum_in given.entry) }
{
    match given {
        Some(value) => given_flat_sizes(value),
        None => Ok((Num::within(ONE), Num::within(ONE))),
    }
}

/// `square(size, center)`.
fn square_by(
    alloc: Global,
    size: Option<&Value>,
    center: Option<&Value>,
) -> Result<Vec<Outline>, ArgumentFault>
    ensures reads { Reads (λ v. outlines v.items) (square_by (datum_in size.entry) (datum_in center.entry)) result }
    ensures outlines { IfOk result (λ v. list_all is_outline (outlines v.items) ≡ true) }
{
    let (x, y) = flat_sizes(size)?;
    alone(alloc, Outline::Rectangle(x, y, is_true(center)))
}

/// `circle(r, d)`.
fn circle_by(
    alloc: Global,
    fine: &Fineness,
    r: Option<&Value>,
    d: Option<&Value>,
) -> Result<Vec<Outline>, ArgumentFault>
    ensures reads { Reads (λ v. outlines v.items) (circle_by (fine_at fine.now) (datum_in r.entry)
        (datum_in d.entry)) result }
    ensures outlines { IfOk result (λ v. list_all is_outline (outlines v.items) ≡ true) }
{
    let radius = common_radius(d, r)?;
    let n = fragments(fine, radius)?;
    alone(alloc, Outline::Circle(radius, n))
}

/// The outlines that the arguments of a flat shape say: it is the first without the others. A value that is
/// missing or isn't what the module takes is `BadArgument`; `LeftOut` and `NumberRange` don't come.
#[tactic(auto, unfolding(crate::specs::FlatShapes::outlines_of))]
pub fn outlines_of(
    alloc: Global,
    flat: Flat,
    fine: &Fineness,
    args: &[Arg],
    values: &[Value],
) -> Result<Vec<Outline>, ArgumentFault>
    ensures reads { Reads (λ v. outlines v.items) (outlines_of flat (fine_at fine.now) (arguments args.now)
        (data_of values.now)) result }
    ensures outlines { IfOk result (λ v. list_all is_outline (outlines v.items) ≡ true) }
{
    match flat {
        Flat::Square => square_by(
            alloc,
            taken(Some(0), b"size", args, values),
            taken(Some(1), b"center", args, values),
        ),
        Flat::Circle => circle_by(
            alloc,
            fine,
            taken(Some(0), b"r", args, values),
            taken(Some(1), b"d", args, values),
        ),
        Flat::Polygon => polygon_by(
            alloc,
            taken(Some(0), b"points", args, values),
            taken(Some(1), b"paths", args, values),
        ),
    }
}
