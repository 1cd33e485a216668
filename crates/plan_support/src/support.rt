//! Support runs.
ghost use Rattle.std.specs.Prelude.{◌≡◌, ◌≤◌, ◌++◌, ◌∷◌, [], map, unsigned_abs, IfOk, OnOk, All};
ghost use Rattle.scad_geom.specs.Limits.{coordinate_limit};
ghost use Rattle.scad_geom.specs.Within.{IsWithin, IsEdgeWithin};
ghost use Rattle.plan_support.specs.Rows.{AreApart, AreRows};
ghost use Rattle.plan_support.specs.Stretches.{AreStretches};
ghost use Rattle.plan_support.specs.Supports.{IsFreeOn, rightwards, leftwards, AddsRow, AreSupports};
ghost use Rattle.plan_support.specs.Near.{AddsNear, AreHoles};

use crate::free::{long_runs, without};
use crate::near::near;
use crate::rows::Rows;
use crate::union::united;
use plan_infill::{Line, Run, runs};
use plan_sides::sides;
use scad_geom::{Edge, Loop, Path, Pt};
use std::alloc::{AllocError, Global};

/// The support runs of a layer, as paths in their order: on the rows of `cover` the maximal stretches of whole points
/// that lie on its runs, that the outlines don't wind round and that have no point of a side within the gap along both
/// axes, each at least `min` long. On the first row that has some, the third and so on they go to the right; on the
/// others they are taken from the last and go to the left.
///
/// The time is that of the sides once for each row, and of sorting those near to it.
pub fn supports(
    alloc: Global,
    outlines: &[Loop],
    cover: &Rows,
    gap: u32,
    min: u32,
) -> Result<Vec<Path>, AllocError>
    requires within { All (λ l. All (IsWithin coordinate_limit) l) outlines.now }
    requires cover { AreRows cover.now }
    ensures { IfOk result (λ v. AreSupports outlines.now cover.now gap min v.items) }
{
    let mut paths = Vec::new(alloc);
    let mut to_right = true;
    'rows: for i in 0..cover.len() {
        let y = cover.y(i);
        let free = free_runs(alloc, outlines, y, cover.runs(i), gap)?;
        to_right = push_row(
            alloc,
            &mut paths,
            to_right,
            y,
            &long_runs(alloc, &free, min)?,
        )?;
    }
    Ok(paths)
}

// The stretches of a row's runs that outlines don't wind round and that don't lie near to a side.
fn free_runs(
    alloc: Global,
    outlines: &[Loop],
    y: i32,
    runs: &[Run],
    gap: u32,
) -> Result<Vec<Run>, AllocError>
    requires within { All (λ l. All (IsWithin coordinate_limit) l) outlines.now }
    requires row { unsigned_abs y ≤ coordinate_limit }
    requires runs { AreApart runs.now }
    ensures { IfOk result (λ v. AreStretches (IsFreeOn outlines.now gap y runs.now) 0 v.items) }
{
    let holes = holes_of(alloc, outlines, y, gap)?;
    without(alloc, runs, &holes)
}

// The places of a row that outlines wind round, or that lie near to a side.
fn holes_of(alloc: Global, outlines: &[Loop], y: i32, gap: u32) -> Result<Vec<Run>, AllocError>
    requires within { All (λ l. All (IsWithin coordinate_limit) l) outlines.now }
    requires row { unsigned_abs y ≤ coordinate_limit }
    ensures apart { IfOk result (λ v. AreApart v.items) }
    ensures holes { IfOk result (λ v. AreHoles outlines.now y gap v.items) }
{
    let mut holes = runs(alloc, outlines, 0, Line::Row(y), 0)?;
    'sides: for side in &sides(alloc, outlines)? {
        push_near(&mut holes, side, y, gap)?;
    }
    united(alloc, holes)
}

// Adds the places that lie near to a side.
fn push_near(holes: &mut Vec<Run>, side: &Edge, y: i32, gap: u32) -> Result<(), AllocError>
    requires edge { IsEdgeWithin coordinate_limit side.now }
    requires row { unsigned_abs y ≤ coordinate_limit }
    ensures { OnOk result (AddsNear side.now y gap holes.old.items holes.new.items) }
{
    let Some(run) = near(side, y, gap) else {
        return Ok(());
    };
    holes.push(run)?;
    Ok(())
}

// Adds the runs of a row as paths; answers whether those of the next row go to the right.
fn push_row(
    alloc: Global,
    paths: &mut Vec<Path>,
    to_right: bool,
    y: i32,
    runs: &[Run],
) -> Result<bool, AllocError>
    ensures { IfOk result (AddsRow to_right (record { y = y; runs = runs.now }) paths.old.items paths.new.items) }
{
    if runs.is_empty() {
        return Ok(to_right);
    }
    if to_right {
        push_rightwards(alloc, paths, y, runs)?;
    } else {
        let mut turned = Vec::from_slice(alloc, runs)?;
        turned.reverse();
        push_leftwards(alloc, paths, y, &turned)?;
    }
    Ok(!to_right)
}

fn push_rightwards(
    alloc: Global,
    paths: &mut Vec<Path>,
    y: i32,
    runs: &[Run],
) -> Result<(), AllocError>
    ensures { OnOk result (paths.new.items ≡ paths.old.items ++ map (rightwards y) runs.now) }
{
    'runs: for run in runs {
        paths.push(way(alloc, Pt { x: run.from, y }, Pt { x: run.to, y })?)?;
    }
    Ok(())
}

fn push_leftwards(
    alloc: Global,
    paths: &mut Vec<Path>,
    y: i32,
    runs: &[Run],
) -> Result<(), AllocError>
    ensures { OnOk result (paths.new.items ≡ paths.old.items ++ map (leftwards y) runs.now) }
{
    'runs: for run in runs {
        paths.push(way(alloc, Pt { x: run.to, y }, Pt { x: run.from, y })?)?;
    }
    Ok(())
}

fn way(alloc: Global, from: Pt, to: Pt) -> Result<Path, AllocError>
    ensures { IfOk result (λ p. p ≡ from ∷ (to ∷ [])) }
{
    Ok(Path::from_vec(Vec::from_slice(alloc, &[from, to])?))
}
