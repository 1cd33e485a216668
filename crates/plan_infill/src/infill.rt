//! The runs of one line.
ghost use Rattle.std.specs.Prelude.{IfOk, OnOk, All};
ghost use Rattle.scad_geom.specs.Limits.{coordinate_limit};
ghost use Rattle.scad_geom.specs.Within.{IsWithin, IsEdgeWithin};
ghost use Rattle.std.specs.List.Sorted.{IsPermutation};
ghost use Rattle.plan_infill.specs.Steps.{AreInOrder, AreSteps};
ghost use Rattle.plan_infill.specs.Runs.{IsLineWithin, AreRuns};

use crate::line::Line;
use crate::near_steps::push_near_steps;
use crate::run::Run;
use crate::step::Step;
use crate::sweep::stretches;
use crate::turn_steps::push_turn_steps;
use plan_sides::sides;
use scad_geom::{Edge, Loop};
use std::alloc::{AllocError, Global};

/// The runs of a line inside outlines, upwards: the maximal stretches of neighbouring whole points, at least `least`
/// micrometres long, that the outlines wind round and that no point of their sides differs from by a point within the
/// octagon of `c` micrometres. A side on the octagon's border doesn't count.
///
/// The time is that of sorting a few places for each side.
pub fn runs(
    alloc: Global,
    outlines: &[Loop],
    c: u32,
    line: Line,
    least: u32,
) -> Result<Vec<Run>, AllocError>
    requires within { All (λ l. All (IsWithin coordinate_limit) l) outlines.now }
    requires line { IsLineWithin coordinate_limit line }
    ensures { IfOk result (λ v. AreRuns outlines.now c line least v.items) }
{
    let sides = sides(alloc, outlines)?;
    let mut steps = steps_of(alloc, &sides, c, line)?;
    sort(&mut steps)?;
    stretches(alloc, &steps, least)
}

// The steps of the winding number and of what is near.
fn steps_of(alloc: Global, sides: &[Edge], c: u32, line: Line) -> Result<Vec<Step>, AllocError>
    requires edges { All (IsEdgeWithin coordinate_limit) sides.now }
    requires line { IsLineWithin coordinate_limit line }
    ensures { IfOk result (λ v. AreSteps c line sides.now v.items) }
{
    let mut steps = Vec::new(alloc);
    'sides: for side in sides {
        push_turn_steps(&mut steps, side, line)?;
        push_near_steps(&mut steps, side, line, c)?;
    }
    Ok(steps)
}

fn sort(steps: &mut Vec<Step>) -> Result<(), AllocError>
    ensures permutation { IsPermutation steps.old.items steps.new.items }
    ensures order { OnOk result (AreInOrder steps.new.items) }
{
    steps.sort_by(|s, t| s.at.cmp(&t.at))
}
