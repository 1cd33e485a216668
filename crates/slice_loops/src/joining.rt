//! The outlines that edges make.
ghost use Rattle.std.specs.Prelude.{◌+◌, IfOk, OnOk};
ghost use Rattle.scad_geom.specs.Segment.{segments};
ghost use Rattle.scad_geom.specs.Balance.{IsBalanced};
ghost use Rattle.slice_loops.specs.Outlines.{AreOutlines, AddsOutline};
ghost use Rattle.slice_loops.specs.Remaining.{remaining, IsInOrder, IsUntaken, AllTakenTo, StayTaken};

use crate::corners::corners;
use crate::drawing::draw;
use crate::remainder::Remaining;
use scad_geom::{Edge, Loop};
use std::alloc::{AllocError, Global};

/// The closed outlines of edges, of which as many start at each point as end there. Loops are drawn from the edges one after
/// another: each begins with the least remaining edge, by start y, start x, end y, end x, and at each point goes on with the
/// least remaining edge that starts there, until it is back at its start. Then the vertices strictly between their neighbours
/// on one line are dropped, and after that the loops of fewer than three vertices.
pub fn join(alloc: Global, edges: &[Edge]) -> Result<Vec<Loop>, AllocError>
    requires balanced { IsBalanced (segments edges.now) }
    ensures { IfOk result (λ v. AreOutlines edges.now v.items) }
{
    let mut left = Remaining::new(alloc, edges)?;
    let mut outlines = Vec::new(alloc);
    'places: for place in 0..left.len() {
        if !left.is_taken(place) {
            push_outline(alloc, &mut left, place, &mut outlines)?;
        }
    }
    Ok(outlines)
}

// Draws the loop that begins at a place, and adds its outline where one is left of it.
fn push_outline(
    alloc: Global,
    left: &mut Remaining,
    place: usize,
    outlines: &mut Vec<Loop>,
) -> Result<(), AllocError>
    requires order { IsInOrder left.old }
    requires there { IsUntaken left.old place }
    requires least { AllTakenTo left.old place }
    requires balanced { IsBalanced (segments (remaining left.old)) }
    ensures added { OnOk result (AddsOutline (remaining left.old) outlines.old.items (remaining left.new) outlines.new.items) }
    ensures order { OnOk result (IsInOrder left.new) }
    ensures balanced { OnOk result (IsBalanced (segments (remaining left.new))) }
    ensures taken { OnOk result (StayTaken left.old left.new) }
    ensures least { OnOk result (AllTakenTo left.new (place + 1)) }
{
    let vertices = draw(alloc, left, place)?;
    let corners = corners(alloc, &vertices)?;
    if corners.len() >= 3 {
        outlines.push(Loop::from_vec(corners))?;
    }
    Ok(())
}
