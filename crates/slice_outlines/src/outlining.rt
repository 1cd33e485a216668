//! The outlines of a shape.
ghost use Rattle.std.specs.Prelude.{◌≤◌, ◌<◌, ◌^◌, length, IfOk, IfErr, All};
ghost use Rattle.scad_geom.specs.Limits.{coordinate_limit};
ghost use Rattle.scad_geom.specs.Within.{IsEdgeWithin};
ghost use Rattle.scad_geom.specs.Leaves.{AreLeavesBalanced};
ghost use Rattle.slice_events.specs.Limits.{crossing_limit};
ghost use Rattle.scad_geom.specs.Level.{IsLevelWithin};
ghost use Rattle.slice_events.specs.Levels.{crossings, AreLevels};
ghost use Rattle.sweep_laws.specs.Sweeps.{AreMergedEdges};
ghost use Rattle.slice_border.specs.Outlines.{AreOutlinesOf};
ghost use Rattle.slice_border.specs.Membership.{HoldCentres};
ghost use Rattle.slice_border.specs.NearBorder.{AreNearBorder};
ghost use Rattle.slice_border.specs.Fault.{IsRefusal};

use crate::sweep::Sweep;
use scad_geom::{Edge, LeafEdge, Level, Loop, Shape};
use slice_border::BoolFault;
use slice_events::{EventFault, levels};
use slice_loops::join;
use slice_pieces::cancel;
use std::alloc::{AllocError, Global};

/// The closed outlines of a shape over the leaves of an edge list, with the inside on their left: the pieces of its
/// border are merged, their ends rounded to whole points, opposite edges cancel, and those left are joined to loops.
///
/// Where no point of an edge lies within one half micrometre of a cell centre along both axes, they wind once round the
/// centre if the shape holds it, and not at all round it if it doesn't. Each point of each of their sides lies less
/// than one micrometre along both axes from a point hard by which the shape holds on one side and not on another.
///
/// It is refused exactly where there are more edges than the limit, and then where more than 2,000,000 pairs cross.
pub fn outlines(
    alloc: Global,
    edges: &[LeafEdge],
    shape: &Shape,
    limit: u32,
) -> Result<Vec<Loop>, BoolFault>
    requires within { All (λ e. IsEdgeWithin coordinate_limit e.edge) edges.now }
    requires balanced { AreLeavesBalanced edges.now }
    ensures outlines { IfOk result (λ v. AreOutlinesOf edges.now shape.now v.items) }
    ensures centres { IfOk result (λ v. HoldCentres edges.now shape.now v.items) }
    ensures near { IfOk result (λ v. AreNearBorder edges.now shape.now v.items) }
    ensures few { IfOk result (λ v. length edges.now ≤ limit) }
    ensures accepted { IfOk result (λ v. crossings edges.now ≤ crossing_limit) }
    ensures refused { IfErr result (IsRefusal (length edges.now) limit (crossings edges.now)) }
{
    let count = edges.len() as u64;
    if count > limit as u64 {
        return Err(BoolFault::Edges(count));
    }
    match levels(alloc, edges) {
        Ok(levels) => match joined(alloc, edges, shape, &levels) {
            Ok(outlines) => Ok(outlines),
            Err(_) => Err(BoolFault::Memory),
        },
        Err(EventFault::Memory) => Err(BoolFault::Memory),
        Err(EventFault::Crossings(count)) => Err(BoolFault::Crossings(count)),
    }
}

fn joined(
    alloc: Global,
    edges: &[LeafEdge],
    shape: &Shape,
    levels: &[Level],
) -> Result<Vec<Loop>, AllocError>
    requires within { All (λ e. IsEdgeWithin coordinate_limit e.edge) edges.now }
    requires few { length edges.now < 2 ^ 32 }
    requires balanced { AreLeavesBalanced edges.now }
    requires levels_within { All (IsLevelWithin coordinate_limit) levels.now }
    requires levels { AreLevels edges.now levels.now }
    ensures { IfOk result (λ v. AreOutlinesOf edges.now shape.now v.items) }
{
    let given = merged_edges(alloc, edges, shape, levels)?;
    let left = cancel(alloc, &given)?;
    join(alloc, &left)
}

// The edges of the merged pieces, by a sweep over the levels.
fn merged_edges(
    alloc: Global,
    edges: &[LeafEdge],
    shape: &Shape,
    levels: &[Level],
) -> Result<Vec<Edge>, AllocError>
    requires within { All (λ e. IsEdgeWithin coordinate_limit e.edge) edges.now }
    requires few { length edges.now < 2 ^ 32 }
    requires balanced { AreLeavesBalanced edges.now }
    requires levels_within { All (IsLevelWithin coordinate_limit) levels.now }
    requires levels { AreLevels edges.now levels.now }
    ensures { IfOk result (λ v. AreMergedEdges edges.now shape.now v.items) }
{
    if levels.is_empty() {
        return Ok(Vec::new(alloc));
    }
    let mut sweep = Sweep::new(alloc, edges, shape)?;
    'levels: for i in 1..levels.len() {
        sweep.fit_cursors(edges, shape)?;
        sweep.advance(edges, &levels[i - 1], &levels[i])?;
    }
    sweep.end(edges, &levels[levels.len() - 1])
}
