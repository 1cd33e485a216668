//! What the arguments of a primitive say.

ghost use Rattle.std.specs.Prelude.{◌≡◌, true, IfOk};
ghost use Rattle.std.specs.Int.{int_max};
ghost use Rattle.scad_ast.specs.View.{arguments};
ghost use Rattle.scad_cos.specs.Circle.{fragments_of};
ghost use Rattle.scad_value.specs.View.{datum_of, data_of};
ghost use Rattle.scad_modules.specs.Arguments.{taken};
ghost use Rattle.scad_modules.specs.Primitive.{are_fragments, is_primitive};
ghost use Rattle.scad_modules.specs.Shapes.{resolution_of, fragments, all_sizes, one_size, three_sizes, given_sizes, sizes, height_of, common_radius, end_radius};
ghost use Rattle.scad_modules.specs.Shapes.{cube_by, sphere_by, cylinder_of, cylinder_by, faces_over, polyhedron_by, primitive_of};
ghost use Rattle.scad_modules.specs.View.{datum_in, fine_at, primitive, Reads};

use crate::argument::taken;
use crate::fault::ArgumentFault;
use crate::fineness::{Fineness, Resolution};
use crate::module::Shape;
use crate::polyhedra::{some_faces, some_points};
use crate::primitive::Primitive;
use crate::reading::{
    Triple, half_or, if_size, is_true, needed, number, point, radius_or, size, vector,
};
use scad_ast::Arg;
use scad_num::{Num, ONE};
use scad_value::Value;
use std::alloc::Global;

/// The numbers of `$fn`, `$fa` and `$fs`.
pub(crate) fn resolution_of(fine: &Fineness) -> Result<Resolution, ArgumentFault>
    ensures { result ≡ resolution_of (fine_at fine.now) }
{
    let fn_ = number(&fine.fn_)?;
    let fa = number(&fine.fa)?;
    let fs = number(&fine.fs)?;
    Ok(Resolution { fn_, fa, fs })
}

/// The fragments of a circle of this radius.
pub(crate) fn fragments(fine: &Fineness, radius: Num) -> Result<u32, ArgumentFault>
    ensures value { result ≡ fragments (fine_at fine.now) radius }
    ensures few { IfOk result (λ n. are_fragments n ≡ true) }
{
    let r = resolution_of(fine)?;
    Ok(few_fragments(radius, r.fn_, r.fa, r.fs))
}

#[tactic(auto, using(crate::proofs::Fragments::fragments_few))]
pub(crate) fn few_fragments(radius: Num, fn_: Num, fa: Num, fs: Num) -> u32
    ensures value { result ≡ fragments_of radius fn_ fa fs }
    ensures few { are_fragments result ≡ true }
{
    let _size = fn_.millionths();
    scad_cos::fragments(radius, fn_, fa, fs) as u32
}

fn all_sizes(p: Triple) -> Result<Triple, ArgumentFault>
    ensures { result ≡ all_sizes p }
{
    let x = if_size(p.0)?;
    let y = if_size(p.1)?;
    let z = if_size(p.2)?;
    Ok((x, y, z))
}

/// One size along all axes.
fn one_size(n: Num) -> Result<Triple, ArgumentFault>
    ensures { result ≡ one_size n }
{
    let size = if_size(n)?;
    Ok((size, size, size))
}

fn three_sizes(value: &Value) -> Result<Triple, ArgumentFault>
    ensures { result ≡ three_sizes (datum_of value.now) }
{
    all_sizes(point(value)?)
}

/// A number or three numbers, none of them negative.
fn given_sizes(value: &Value) -> Result<Triple, ArgumentFault>
    ensures { result ≡ given_sizes (datum_of value.now) }
{
    match value {
        Value::Number(n) => one_size(*n),
        _ => three_sizes(value),
    }
}

/// The sizes of a cube, 1 where nothing is given.
fn sizes(given: Option<&Value>) -> Result<Triple, ArgumentFault>
    ensures { result ≡ sizes (datum_in given.entry) }
{
    match given {
        Some(value) => given_sizes(value),
        None => Ok((Num::within(ONE), Num::within(ONE), Num::within(ONE))),
    }
}

/// A height, 1 where nothing is given.
fn height(given: Option<&Value>) -> Result<Num, ArgumentFault>
    ensures { result ≡ height_of (datum_in given.entry) }
{
    match given {
        Some(value) => size(value),
        None => Ok(Num::within(ONE)),
    }
}

/// Half of `d`, else `r`, else 1.
pub(crate) fn common_radius(d: Option<&Value>, r: Option<&Value>) -> Result<Num, ArgumentFault>
    ensures { result ≡ common_radius (datum_in d.entry) (datum_in r.entry) }
{
    half_or(d, radius_or(r, Ok(Num::within(ONE))))
}

/// The radius of an end of a cylinder.
fn end_radius(
    own_d: Option<&Value>,
    own_r: Option<&Value>,
    d: Option<&Value>,
    r: Option<&Value>,
) -> Result<Num, ArgumentFault>
    ensures { result ≡ end_radius (datum_in own_d.entry) (datum_in own_r.entry) (datum_in d.entry)
        (datum_in r.entry) }
{
    half_or(own_d, radius_or(own_r, common_radius(d, r)))
}

/// `cube(size, center)`.
fn cube_by(size: Option<&Value>, center: Option<&Value>) -> Result<Primitive, ArgumentFault>
    ensures reads { Reads primitive (cube_by (datum_in size.entry) (datum_in center.entry)) result }
    ensures primitive { IfOk result (λ p. is_primitive (primitive p) ≡ true) }
{
    let (x, y, z) = sizes(size)?;
    Ok(Primitive::Cube(x, y, z, is_true(center)))
}

/// `sphere(r, d)`.
fn sphere_by(
    fine: &Fineness,
    r: Option<&Value>,
    d: Option<&Value>,
) -> Result<Primitive, ArgumentFault>
    ensures reads { Reads primitive (sphere_by (fine_at fine.now) (datum_in r.entry) (datum_in d.entry)) result }
    ensures primitive { IfOk result (λ p. is_primitive (primitive p) ≡ true) }
{
    let radius = common_radius(d, r)?;
    let n = fragments(fine, radius)?;
    Ok(Primitive::Sphere(radius, n))
}

fn greater(a: Num, b: Num) -> Num
    ensures { result ≡ int_max a b }
{
    if a.millionths() < b.millionths() {
        b
    } else {
        a
    }
}

fn cylinder_of(
    fine: &Fineness,
    height: Num,
    bottom: Num,
    top: Num,
    center: Option<&Value>,
) -> Result<Primitive, ArgumentFault>
    ensures reads { Reads primitive (cylinder_of (fine_at fine.now) height bottom top (datum_in center.entry))
        result }
    ensures primitive { IfOk result (λ p. is_primitive (primitive p) ≡ true) }
{
    let n = fragments(fine, greater(bottom, top))?;
    Ok(Primitive::Cylinder(height, bottom, top, n, is_true(center)))
}

/// `cylinder(h, r1, r2, center)`, and by name `r`, `d`, `d1` and `d2`.
fn cylinder_by(fine: &Fineness, args: &[Arg], values: &[Value]) -> Result<Primitive, ArgumentFault>
    ensures reads { Reads primitive (cylinder_by (fine_at fine.now) (arguments args.now) (data_of values.now))
        result }
    ensures primitive { IfOk result (λ p. is_primitive (primitive p) ≡ true) }
{
    let r = taken(None, b"r", args, values);
    let d = taken(None, b"d", args, values);
    let height = height(taken(Some(0), b"h", args, values))?;
    let bottom = end_radius(
        taken(None, b"d1", args, values),
        taken(Some(1), b"r1", args, values),
        d,
        r,
    )?;
    let top = end_radius(
        taken(None, b"d2", args, values),
        taken(Some(2), b"r2", args, values),
        d,
        r,
    )?;
    cylinder_of(
        fine,
        height,
        bottom,
        top,
        taken(Some(3), b"center", args, values),
    )
}

/// A polyhedron over these points.
fn faces_over(
    alloc: Global,
    points: Vec<Triple>,
    faces: Option<&Value>,
) -> Result<Primitive, ArgumentFault>
    ensures reads { Reads primitive (faces_over points.items (datum_in faces.entry)) result }
    ensures primitive { IfOk result (λ p. is_primitive (primitive p) ≡ true) }
{
    let faces = some_faces(alloc, points.len(), vector(needed(faces)?)?)?;
    Ok(Primitive::Polyhedron(points, faces))
}

/// `polyhedron(points, faces)`.
fn polyhedron_by(
    alloc: Global,
    points: Option<&Value>,
    faces: Option<&Value>,
) -> Result<Primitive, ArgumentFault>
    ensures reads { Reads primitive (polyhedron_by (datum_in points.entry) (datum_in faces.entry)) result }
    ensures primitive { IfOk result (λ p. is_primitive (primitive p) ≡ true) }
{
    let points = some_points(alloc, vector(needed(points)?)?)?;
    faces_over(alloc, points, faces)
}

/// What the arguments of a primitive say. A value that is missing or isn't what the module takes is
/// `BadArgument`; `LeftOut` and `NumberRange` don't come.
#[tactic(auto, unfolding(crate::specs::Shapes::primitive_of))]
pub fn primitive_of(
    alloc: Global,
    shape: Shape,
    fine: &Fineness,
    args: &[Arg],
    values: &[Value],
) -> Result<Primitive, ArgumentFault>
    ensures reads { Reads primitive (primitive_of shape (fine_at fine.now) (arguments args.now)
        (data_of values.now)) result }
    ensures primitive { IfOk result (λ p. is_primitive (primitive p) ≡ true) }
{
    match shape {
        Shape::Cube => cube_by(
            taken(Some(0), b"size", args, values),
            taken(Some(1), b"center", args, values),
        ),
        Shape::Sphere => sphere_by(
            fine,
            taken(Some(0), b"r", args, values),
            taken(Some(1), b"d", args, values),
        ),
        Shape::Cylinder => cylinder_by(fine, args, values),
        Shape::Polyhedron => polyhedron_by(
            alloc,
            taken(Some(0), b"points", args, values),
            taken(Some(1), b"faces", args, values),
        ),
    }
}
