//! The points and paths of polygons.

ghost use Rattle.std.specs.Prelude.{◌≡◌, [], true, length, IfOk};
ghost use Rattle.std.specs.List.{list_all};
ghost use Rattle.scad_solid.specs.Solid.{names_points};
ghost use Rattle.scad_value.specs.View.{datum_of, elements};
ghost use Rattle.scad_modules.specs.FlatShapes.{pairs_onto, some_pairs, points_at, path_in, paths_onto, some_paths};
ghost use Rattle.scad_modules.specs.FlatShapes.{one_path, begins_with_number, given_paths, whole_path, paths_of};
ghost use Rattle.scad_modules.specs.FlatShapes.{polygon_by};
ghost use Rattle.scad_modules.specs.Outline.{is_outline, path};
ghost use Rattle.scad_modules.specs.Primitive.{is_face};
ghost use Rattle.scad_modules.specs.View.{datum_in, outline, outlines, Reads};

use crate::fault::ArgumentFault;
use crate::outline::{Outline, alone};
use crate::polyhedra::{face, three_indices};
use crate::reading::{Pair, needed, pair, vector};
use scad_solid::Face;
use scad_value::{Value, number_of};
use std::alloc::{AllocError, Global};

/// The points that values are.
fn pairs(alloc: Global, all: &[Value]) -> Result<Vec<Pair>, ArgumentFault>
    ensures { Reads (λ v. v.items) (pairs_onto [] (elements all.now)) result }
{
    let mut points = Vec::new(alloc);
    'points: for value in all {
        let point = pair(value)?;
        points.push(point)?;
    }
    Ok(points)
}

/// One point at least.
#[tactic(auto, using(scad_value::proofs::Rows::counted))]
fn some_pairs(alloc: Global, all: &[Value]) -> Result<Vec<Pair>, ArgumentFault>
    ensures { Reads (λ v. v.items) (some_pairs (elements all.now)) result }
{
    if 1 <= all.len() {
        pairs(alloc, all)
    } else {
        Err(ArgumentFault::BadArgument)
    }
}

/// The points of these indices.
fn points_at(alloc: Global, points: &[Pair], indices: &[u32]) -> Result<Vec<Pair>, AllocError>
    requires { names_points (length points.now) indices.now ≡ true }
    ensures { IfOk result (λ v. v.items ≡ points_at points.now indices.now) }
{
    let mut path = Vec::new(alloc);
    'indices: for i in indices {
        path.push(points[*i as usize])?;
    }
    Ok(path)
}

/// The path of these indices.
#[tactic(auto, using(crate::proofs::Paths::lengths))]
fn path(alloc: Global, points: &[Pair], indices: Face) -> Result<Outline, AllocError>
    requires { is_face (length points.now) indices ≡ true }
    ensures is { IfOk result (λ o. outline o ≡ path (points_at points.now indices)) }
    ensures outline { IfOk result (λ o. is_outline (outline o) ≡ true) }
{
    Ok(Outline::Path(points_at(alloc, points, indices.as_slice())?))
}

/// One path of these indices.
fn one_path(alloc: Global, points: &[Pair], all: &[Value]) -> Result<Vec<Outline>, ArgumentFault>
    ensures reads { Reads (λ v. outlines v.items) (one_path points.now (elements all.now)) result }
    ensures outlines { IfOk result (λ v. list_all is_outline (outlines v.items) ≡ true) }
{
    let indices = three_indices(alloc, points.len(), all)?;
    let path = path(alloc, points, indices)?;
    alone(alloc, path)
}

/// The path that a value is.
fn path_in(alloc: Global, points: &[Pair], value: &Value) -> Result<Outline, ArgumentFault>
    ensures reads { Reads outline (path_in points.now (datum_of value.now)) result }
    ensures outline { IfOk result (λ o. is_outline (outline o) ≡ true) }
{
    let indices = face(alloc, points.len(), value)?;
    Ok(path(alloc, points, indices)?)
}

/// The paths that values are.
fn paths(alloc: Global, points: &[Pair], all: &[Value]) -> Result<Vec<Outline>, ArgumentFault>
    ensures reads { Reads (λ v. outlines v.items) (paths_onto points.now [] (elements all.now)) result }
    ensures outlines { IfOk result (λ v. list_all is_outline (outlines v.items) ≡ true) }
{
    let mut paths = Vec::new(alloc);
    'paths: for value in all {
        let path = path_in(alloc, points, value)?;
        paths.push(path)?;
    }
    Ok(paths)
}

/// One path at least.
#[tactic(auto, using(scad_value::proofs::Rows::counted))]
fn some_paths(alloc: Global, points: &[Pair], all: &[Value]) -> Result<Vec<Outline>, ArgumentFault>
    ensures reads { Reads (λ v. outlines v.items) (some_paths points.now (elements all.now)) result }
    ensures outlines { IfOk result (λ v. list_all is_outline (outlines v.items) ≡ true) }
{
    if 1 <= all.len() {
        paths(alloc, points, all)
    } else {
        Err(ArgumentFault::BadArgument)
    }
}

/// Whether the first of the values is a number.
fn begins_with_number(all: &[Value]) -> bool
    ensures { result ≡ begins_with_number (elements all.now) }
{
    match all {
        [first, ..] => number_of(first).is_some(),
        [] => false,
    }
}

/// A vector of indices, or a vector of such.
fn given_paths(alloc: Global, points: &[Pair], all: &[Value]) -> Result<Vec<Outline>, ArgumentFault>
    ensures reads { Reads (λ v. outlines v.items) (given_paths points.now (elements all.now)) result }
    ensures outlines { IfOk result (λ v. list_all is_outline (outlines v.items) ≡ true) }
{
    if begins_with_number(all) {
        one_path(alloc, points, all)
    } else {
        some_paths(alloc, points, all)
    }
}

/// All points in order.
fn whole_path(alloc: Global, points: Vec<Pair>) -> Result<Vec<Outline>, ArgumentFault>
    ensures reads { Reads (λ v. outlines v.items) (whole_path points.items) result }
    ensures outlines { IfOk result (λ v. list_all is_outline (outlines v.items) ≡ true) }
{
    if points.len() < 3 {
        return Err(ArgumentFault::BadArgument);
    }
    alone(alloc, Outline::Path(points))
}

fn paths_of(
    alloc: Global,
    points: Vec<Pair>,
    paths: Option<&Value>,
) -> Result<Vec<Outline>, ArgumentFault>
    ensures reads { Reads (λ v. outlines v.items) (paths_of points.items (datum_in paths.entry)) result }
    ensures outlines { IfOk result (λ v. list_all is_outline (outlines v.items) ≡ true) }
{
    match paths {
        Some(value) => given_paths(alloc, &points, vector(value)?),
        None => whole_path(alloc, points),
    }
}

/// `polygon(points, paths)`.
pub(crate) fn polygon_by(
    alloc: Global,
    points: Option<&Value>,
    paths: Option<&Value>,
) -> Result<Vec<Outline>, ArgumentFault>
    ensures reads { Reads (λ v. outlines v.items) (polygon_by (datum_in points.entry) (datum_in paths.entry))
        result }
    ensures outlines { IfOk result (λ v. list_all is_outline (outlines v.items) ≡ true) }
{
    let points = some_pairs(alloc, vector(needed(points)?)?)?;
    paths_of(alloc, points, paths)
}
