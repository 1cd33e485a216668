//! The outlines of a shape.
ghost use Rattle.std.specs.Prelude.{◌≤◌, length, IfOk, IfErr, All};
ghost use Rattle.scad_geom.specs.Limits.{coordinate_limit};
ghost use Rattle.scad_geom.specs.Within.{IsEdgeWithin};
ghost use Rattle.scad_geom.specs.Leaves.{AreLeavesBalanced};
ghost use Rattle.slice_events.specs.Limits.{crossing_limit};
ghost use Rattle.slice_events.specs.Levels.{crossings};
ghost use Rattle.slice_pieces.specs.Pieces.{HaveOneLevel, IsPieceWithin, ArePiecesBalanced};
ghost use Rattle.slice_border.specs.Outlines.{AreMadeOf, AreOutlinesOf};
ghost use Rattle.slice_border.specs.Membership.{HoldCentres};
ghost use Rattle.slice_border.specs.NearBorder.{AreNearBorder};
ghost use Rattle.slice_border.specs.Fault.{IsRefusal};

use crate::border::pieces;
use scad_geom::{LeafEdge, Loop, Shape};
use slice_border::BoolFault;
use slice_loops::join;
use slice_pieces::{Piece, cancel};
use slice_snap::{merge, round};
use std::alloc::{AllocError, Global};

/// The closed outlines of a shape over the leaves of an edge list, with the inside on their left: the pieces of its border
/// (`pieces`) are merged, their ends rounded to whole points, opposite edges cancel, and those left are joined to loops.
///
/// Where no point of an edge lies within one half micrometre of a cell centre along both axes, they wind once round the
/// centre if the shape holds it, and not at all round it if it doesn't. Each point of each of their sides lies less than
/// one micrometre along both axes from a point hard by which the shape holds on one side and not on another.
///
/// It is refused exactly where there are more edges than the limit, and then where more than 2,000,000 pairs cross.
#[tactic(auto, using(slice_border::proofs::Membership::outlines_hold_centres))]
pub fn outlines(
    alloc: Global,
    edges: &[LeafEdge],
    shape: &Shape,
    limit: u32,
) -> Result<Vec<Loop>, BoolFault>
    requires within { All (λ e. IsEdgeWithin coordinate_limit e.edge) edges.now }
    requires balanced { AreLeavesBalanced edges.now }
    ensures outlines { IfOk result (λ v. AreOutlinesOf edges.now shape.now v.items) }
    ensures centres { IfOk result (λ v. HoldCentres edges.now shape.now v.items) }
    ensures near { IfOk result (λ v. AreNearBorder edges.now shape.now v.items) }
    ensures few { IfOk result (λ v. length edges.now ≤ limit) }
    ensures accepted { IfOk result (λ v. crossings edges.now ≤ crossing_limit) }
    ensures refused { IfErr result (IsRefusal (length edges.now) limit (crossings edges.now)) }
{
    match pieces(alloc, edges, shape, limit) {
        Ok(pieces) => match joined(alloc, &pieces) {
            Ok(outlines) => Ok(outlines),
            Err(_) => Err(BoolFault::Memory),
        },
        Err(fault) => Err(fault),
    }
}

fn joined(alloc: Global, pieces: &[Piece]) -> Result<Vec<Loop>, AllocError>
    requires within { All (IsPieceWithin coordinate_limit) pieces.now }
    requires levels { HaveOneLevel pieces.now }
    requires balanced { ArePiecesBalanced pieces.now }
    ensures { IfOk result (λ v. AreMadeOf pieces.now v.items) }
{
    let merged = merge(alloc, pieces)?;
    let edges = round(alloc, &merged)?;
    let left = cancel(alloc, &edges)?;
    join(alloc, &left)
}
