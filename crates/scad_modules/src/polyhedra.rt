//! The points and faces of polyhedra.

ghost use Rattle.std.specs.Prelude.{◌≡◌, ◌<◌, ◌≤◌, ◌&&◌, pos, [], true, nat_le, length, IfOk};
ghost use Rattle.std.specs.List.{list_all};
ghost use Rattle.scad_num.specs.Number.{most};
ghost use Rattle.scad_solid.specs.Solid.{names_points};
ghost use Rattle.scad_modules.specs.Primitive.{is_face};
ghost use Rattle.scad_value.specs.View.{datum_of, elements};
ghost use Rattle.scad_modules.specs.Reading.{points_onto, some_points, whole_below, index_of, indices_onto, three_indices};
ghost use Rattle.scad_modules.specs.Reading.{face_of, faces_onto, some_faces};
ghost use Rattle.scad_modules.specs.View.{Reads};

use crate::fault::ArgumentFault;
use crate::reading::{Triple, number, point, vector};
use scad_num::{Num, ONE_PART};
use scad_solid::Face;
use scad_value::Value;
use std::alloc::Global;

/// The points that values are.
fn points(alloc: Global, all: &[Value]) -> Result<Vec<Triple>, ArgumentFault>
    ensures { Reads (λ v. v.items) (points_onto [] (elements all.now)) result }
{
    let mut points = Vec::new(alloc);
    'points: for value in all {
        let point = point(value)?;
        points.push(point)?;
    }
    Ok(points)
}

/// One point at least.
#[tactic(auto, using(scad_value::proofs::Rows::counted))]
pub(crate) fn some_points(alloc: Global, all: &[Value]) -> Result<Vec<Triple>, ArgumentFault>
    ensures { Reads (λ v. v.items) (some_points (elements all.now)) result }
{
    if 1 <= all.len() {
        points(alloc, all)
    } else {
        Err(ArgumentFault::BadArgument)
    }
}

/// A whole number that names one of so many points.
fn whole_below(limit: usize, n: Num) -> Result<u32, ArgumentFault>
    ensures value { result ≡ whole_below limit n }
    ensures below { IfOk result (λ i. i < limit) }
{
    if n.millionths() < 0 {
        return Err(ArgumentFault::BadArgument);
    }
    index_below(limit, n.millionths() as u64)
}

fn index_below(limit: usize, n: u64) -> Result<u32, ArgumentFault>
    requires { n ≤ most }
    ensures value { result ≡ whole_below limit (pos n) }
    ensures below { IfOk result (λ i. i < limit) }
{
    if n % ONE_PART == 0 && ((n / ONE_PART) as usize) < limit {
        Ok((n / ONE_PART) as u32)
    } else {
        Err(ArgumentFault::BadArgument)
    }
}

fn index(limit: usize, value: &Value) -> Result<u32, ArgumentFault>
    ensures value { result ≡ index_of limit (datum_of value.now) }
    ensures below { IfOk result (λ i. i < limit) }
{
    whole_below(limit, number(value)?)
}

/// The indices that values are.
fn indices(alloc: Global, limit: usize, all: &[Value]) -> Result<Vec<u32>, ArgumentFault>
    ensures reads { Reads (λ v. v.items) (indices_onto limit [] (elements all.now)) result }
    ensures named { IfOk result (λ v. names_points limit v.items ≡ true) }
    ensures count { IfOk result (λ v. length v.items ≡ length all.now) }
{
    let mut indices = Vec::new(alloc);
    'indices: for value in all {
        let index = index(limit, value)?;
        indices.push(index)?;
    }
    Ok(indices)
}

/// Three indices at least.
#[tactic(auto, using(scad_value::proofs::Rows::counted))]
pub(crate) fn three_indices(
    alloc: Global,
    limit: usize,
    all: &[Value],
) -> Result<Face, ArgumentFault>
    ensures reads { Reads (λ f. f) (three_indices limit (elements all.now)) result }
    ensures face { IfOk result (λ f. is_face limit f ≡ true) }
{
    if 3 <= all.len() {
        Ok(Face::from_vec(indices(alloc, limit, all)?))
    } else {
        Err(ArgumentFault::BadArgument)
    }
}

/// A face over so many points.
pub(crate) fn face(alloc: Global, limit: usize, value: &Value) -> Result<Face, ArgumentFault>
    ensures reads { Reads (λ f. f) (face_of limit (datum_of value.now)) result }
    ensures face { IfOk result (λ f. is_face limit f ≡ true) }
{
    three_indices(alloc, limit, vector(value)?)
}

/// The faces that values are.
fn faces(alloc: Global, limit: usize, all: &[Value]) -> Result<Vec<Face>, ArgumentFault>
    ensures reads { Reads (λ v. v.items) (faces_onto limit [] (elements all.now)) result }
    ensures faces { IfOk result (λ v. list_all (is_face limit) v.items ≡ true) }
    ensures count { IfOk result (λ v. length v.items ≡ length all.now) }
{
    let mut faces = Vec::new(alloc);
    'faces: for value in all {
        let face = face(alloc, limit, value)?;
        faces.push(face)?;
    }
    Ok(faces)
}

/// One face at least.
#[tactic(auto, using(scad_value::proofs::Rows::counted))]
pub(crate) fn some_faces(
    alloc: Global,
    limit: usize,
    all: &[Value],
) -> Result<Vec<Face>, ArgumentFault>
    ensures reads { Reads (λ v. v.items) (some_faces limit (elements all.now)) result }
    ensures faces { IfOk result (λ v. (nat_le 1 (length v.items) && list_all (is_face limit) v.items) ≡ true) }
{
    if 1 <= all.len() {
        faces(alloc, limit, all)
    } else {
        Err(ArgumentFault::BadArgument)
    }
}
