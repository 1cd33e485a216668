//! The matrices of the transformations by their arguments.

ghost use Rattle.std.specs.Prelude.{◌≡◌, ◌≤◌, pos, length, unsigned_abs};
ghost use Rattle.std.specs.Ordering.{int_eq};
ghost use Rattle.scad_ast.specs.View.{arguments};
ghost use Rattle.scad_num.specs.Number.{most};
ghost use Rattle.scad_value.specs.View.{datum_of, elements, data_of};
ghost use Rattle.scad_matrix.specs.Makers.{angle_limit};
ghost use Rattle.scad_modules.specs.Transforms.{translate_by, scale_by_three, scale_by, mirror_by, row_at, first_three, turned_by, row_of_four, row_of, rows_of, multmatrix_by};
ghost use Rattle.scad_modules.specs.Transforms.{angle_of, turned, way_round, about, about_axis, turned_about, product, turned_by_three, rotate_by};
ghost use Rattle.scad_modules.specs.Transforms.{first_name, matrix_by, matrix_of};
ghost use Rattle.scad_modules.specs.View.{datum_in};

use crate::argument::taken;
use crate::fault::ArgumentFault;
use crate::module::Transform;
use crate::reading::{Triple, coordinates, needed, number_at, point, vector};
use scad_ast::Arg;
use scad_matrix::{Axis, Matrix, MatrixFault, Row, mirror, scale, translate, turn};
use scad_num::{Num, ONE, half_away};
use scad_value::Value;

/// `translate(v)`.
fn translate_by(v: &Value) -> Result<Matrix, ArgumentFault>
    ensures { result ≡ translate_by (datum_of v.now) }
{
    let (x, y, z) = coordinates(Num::within(0), v)?;
    Ok(translate(x, y, z))
}

fn scale_by_three(v: &Value) -> Result<Matrix, ArgumentFault>
    ensures { result ≡ scale_by_three (datum_of v.now) }
{
    let (x, y, z) = coordinates(Num::within(ONE), v)?;
    Ok(scale(x, y, z))
}

/// `scale(v)`.
fn scale_by(v: &Value) -> Result<Matrix, ArgumentFault>
    ensures { result ≡ scale_by (datum_of v.now) }
{
    match v {
        Value::Number(n) => Ok(scale(*n, *n, *n)),
        _ => scale_by_three(v),
    }
}

/// `mirror(v)`.
fn mirror_by(v: &Value) -> Result<Matrix, ArgumentFault>
    ensures { result ≡ mirror_by (datum_of v.now) }
{
    let (x, y, z) = coordinates(Num::within(0), v)?;
    Ok(mirror(x, y, z))
}

#[tactic(auto, using(scad_value::proofs::Rows::counted))]
fn row_of_four(all: &[Value]) -> Result<Row, ArgumentFault>
    ensures { result ≡ row_of_four (elements all.now) }
{
    if all.len() == 4 {
        row_at(all)
    } else {
        Err(ArgumentFault::BadArgument)
    }
}

fn row_at(all: &[Value]) -> Result<Row, ArgumentFault>
    ensures { result ≡ row_at (elements all.now) }
{
    let zero = Num::within(0);
    let x = number_at(all, 0, zero)?;
    let y = number_at(all, 1, zero)?;
    let z = number_at(all, 2, zero)?;
    let shift = number_at(all, 3, zero)?;
    Ok(Row { x, y, z, shift })
}

/// A row of four numbers.
fn row(value: &Value) -> Result<Row, ArgumentFault>
    ensures { result ≡ row_of (datum_of value.now) }
{
    row_of_four(vector(value)?)
}

#[tactic(auto, using(scad_value::proofs::Rows::counted))]
fn rows(all: &[Value]) -> Result<Matrix, ArgumentFault>
    ensures { result ≡ rows_of (elements all.now) }
{
    if 3 <= all.len() && all.len() <= 4 {
        first_three(all)
    } else {
        Err(ArgumentFault::BadArgument)
    }
}

#[tactic(auto, using(scad_value::proofs::Access::places), unfolding(crate::specs::Transforms::first_three))]
fn first_three(all: &[Value]) -> Result<Matrix, ArgumentFault>
    requires { 3 ≤ length all.now }
    ensures { result ≡ first_three (elements all.now) }
{
    let x = row(&all[0])?;
    let y = row(&all[1])?;
    let z = row(&all[2])?;
    Ok(Matrix { x, y, z })
}

/// `multmatrix(m)`.
fn multmatrix_by(m: &Value) -> Result<Matrix, ArgumentFault>
    ensures { result ≡ multmatrix_by (datum_of m.now) }
{
    rows(vector(m)?)
}

/// Degrees as thousandths of a degree.
fn angle(degrees: Num) -> i64
    ensures value { result ≡ angle_of degrees }
    ensures small { unsigned_abs result ≤ angle_limit }
{
    thousandths(i128::from(degrees.millionths())) as i64
}

#[tactic(auto, using(crate::proofs::Angles::angle_is_small))]
fn thousandths(millionths: i128) -> i128
    requires { unsigned_abs millionths ≤ most }
    ensures value { result ≡ angle_of millionths }
    ensures small { unsigned_abs result ≤ angle_limit }
{
    half_away(millionths, 1000)
}

/// The rotation about an axis by degrees.
fn turned(axis: Axis, degrees: Num) -> Matrix
    ensures { result ≡ turned axis degrees }
{
    turn(axis, angle(degrees))
}

/// The other way round where an axis is given by a negative number.
fn way_round(length: Num, angle: i64) -> i64
    requires { unsigned_abs angle ≤ angle_limit }
    ensures value { result ≡ way_round length angle }
    ensures small { unsigned_abs result ≤ angle_limit }
{
    if length.millionths() < 0 {
        -angle
    } else {
        angle
    }
}

fn about(axis: Axis, length: Num, angle: i64) -> Matrix
    requires { unsigned_abs angle ≤ angle_limit }
    ensures { result ≡ about axis length angle }
{
    turn(axis, way_round(length, angle))
}

fn is_zero(n: Num) -> bool
    ensures { result ≡ int_eq n (pos 0) }
{
    n.millionths() == 0
}

/// The rotation about the one coordinate that isn't 0.
fn about_axis(angle: i64, p: Triple) -> Result<Matrix, ArgumentFault>
    requires { unsigned_abs angle ≤ angle_limit }
    ensures { result ≡ about_axis angle p }
{
    let (x, y, z) = p;
    if is_zero(y) {
        if is_zero(z) {
            if is_zero(x) {
                Err(ArgumentFault::BadArgument)
            } else {
                Ok(about(Axis::X, x, angle))
            }
        } else if is_zero(x) {
            Ok(about(Axis::Z, z, angle))
        } else {
            Err(ArgumentFault::LeftOut)
        }
    } else if is_zero(z) {
        if is_zero(x) {
            Ok(about(Axis::Y, y, angle))
        } else {
            Err(ArgumentFault::LeftOut)
        }
    } else {
        Err(ArgumentFault::LeftOut)
    }
}

/// A number of degrees, about z or about the axis that is given.
fn turned_about(degrees: Num, v: Option<&Value>) -> Result<Matrix, ArgumentFault>
    ensures { result ≡ turned_about degrees (datum_in v.entry) }
{
    match v {
        Some(v) => about_axis(angle(degrees), point(v)?),
        None => Ok(turned(Axis::Z, degrees)),
    }
}

fn product(a: &Matrix, b: &Matrix) -> Result<Matrix, ArgumentFault>
    ensures { result ≡ product a.now b.now }
{
    match a.compose(b) {
        Ok(m) => Ok(m),
        Err(MatrixFault::Range) => Err(ArgumentFault::NumberRange),
    }
}

/// About x, then about y, then about z.
fn turned_by_three(p: Triple) -> Result<Matrix, ArgumentFault>
    ensures { result ≡ turned_by_three p }
{
    let (x, y, z) = p;
    let zy = product(&turned(Axis::Z, z), &turned(Axis::Y, y))?;
    product(&zy, &turned(Axis::X, x))
}

fn turned_by(a: &Value) -> Result<Matrix, ArgumentFault>
    ensures { result ≡ turned_by (datum_of a.now) }
{
    turned_by_three(coordinates(Num::within(0), a)?)
}

/// `rotate(a, v)`.
fn rotate_by(a: &Value, v: Option<&Value>) -> Result<Matrix, ArgumentFault>
    ensures { result ≡ rotate_by (datum_of a.now) (datum_in v.entry) }
{
    match a {
        Value::Number(degrees) => turned_about(*degrees, v),
        _ => turned_by(a),
    }
}

/// The name of the first argument.
fn first_name(transform: Transform) -> &'static [u8]
    ensures { result.now ≡ first_name transform }
{
    match transform {
        Transform::Translate => b"v",
        Transform::Scale => b"v",
        Transform::Rotate => b"a",
        Transform::Mirror => b"v",
        Transform::Multmatrix => b"m",
    }
}

/// The matrix that the first argument says, with those behind it.
fn matrix_by(
    transform: Transform,
    first: &Value,
    args: &[Arg],
    values: &[Value],
) -> Result<Matrix, ArgumentFault>
    ensures { result ≡ matrix_by transform (datum_of first.now) (arguments args.now) (data_of values.now) }
{
    match transform {
        Transform::Translate => translate_by(first),
        Transform::Scale => scale_by(first),
        Transform::Rotate => rotate_by(first, taken(Some(1), b"v", args, values)),
        Transform::Mirror => mirror_by(first),
        Transform::Multmatrix => multmatrix_by(first),
    }
}

/// The matrix that a transformation's arguments say. A value that is missing or isn't what the module
/// takes is `BadArgument`; a rotation about an axis that is no coordinate axis is `LeftOut`.
pub fn matrix_of(
    transform: Transform,
    args: &[Arg],
    values: &[Value],
) -> Result<Matrix, ArgumentFault>
    ensures { result ≡ matrix_of transform (arguments args.now) (data_of values.now) }
{
    match needed(taken(Some(0), first_name(transform), args, values)) {
        Ok(first) => matrix_by(transform, first, args, values),
        Err(why) => Err(why),
    }
}
