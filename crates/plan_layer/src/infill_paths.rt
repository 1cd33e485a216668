//! The runs of infill as paths.
ghost use Rattle.std.specs.Prelude.{◌≡◌, true, [], ◌∷◌, ◌++◌, map, IfOk, OnOk};
ghost use Rattle.plan_infill.specs.Runs.{point_on};
ghost use Rattle.plan_layer.specs.Infill as spec;

use crate::lines::{LineRuns, line_at};
use plan_infill::{Line, Run};
use scad_geom::{Path, Pt};
use std::alloc::{AllocError, Global};

/// Adds the runs of lines: of the first line upwards, of the second from the last run on and downwards, and so on.
pub(crate) fn push_infill(
    alloc: Global,
    paths: &mut Vec<Path>,
    layer: u32,
    lines: &[LineRuns],
) -> Result<(), AllocError>
    ensures { OnOk result (paths.new.items ≡ paths.old.items ++ spec.infill_paths layer true lines.now) }
{
    let mut upwards = true;
    'lines: for filled in lines {
        let line = line_at(layer, filled.at());
        push_line(alloc, paths, upwards, line, filled.runs())?;
        upwards = !upwards;
    }
    Ok(())
}

fn push_line(
    alloc: Global,
    paths: &mut Vec<Path>,
    upwards: bool,
    line: Line,
    runs: &[Run],
) -> Result<(), AllocError>
    ensures { OnOk result (paths.new.items ≡ paths.old.items ++ spec.line_paths upwards line runs.now) }
{
    if upwards {
        push_forwards(alloc, paths, line, runs)
    } else {
        let mut turned = Vec::from_slice(alloc, runs)?;
        turned.reverse();
        push_backwards(alloc, paths, line, &turned)
    }
}

fn push_forwards(
    alloc: Global,
    paths: &mut Vec<Path>,
    line: Line,
    runs: &[Run],
) -> Result<(), AllocError>
    ensures { OnOk result (paths.new.items ≡ paths.old.items ++ map (spec.forwards line) runs.now) }
{
    'runs: for run in runs {
        paths.push(way(alloc, point_on(line, run.from), point_on(line, run.to))?)?;
    }
    Ok(())
}

fn push_backwards(
    alloc: Global,
    paths: &mut Vec<Path>,
    line: Line,
    runs: &[Run],
) -> Result<(), AllocError>
    ensures { OnOk result (paths.new.items ≡ paths.old.items ++ map (spec.backwards line) runs.now) }
{
    'runs: for run in runs {
        paths.push(way(alloc, point_on(line, run.to), point_on(line, run.from))?)?;
    }
    Ok(())
}

// The whole point at a place of a line.
fn point_on(line: Line, at: i32) -> Pt
    ensures { result ≡ point_on line at }
{
    match line {
        Line::Row(y) => Pt { x: at, y },
        Line::Column(x) => Pt { x, y: at },
    }
}

fn way(alloc: Global, from: Pt, to: Pt) -> Result<Path, AllocError>
    ensures { IfOk result (λ p. p ≡ from ∷ (to ∷ [])) }
{
    Ok(Path::from_vec(Vec::from_slice(alloc, &[from, to])?))
}
