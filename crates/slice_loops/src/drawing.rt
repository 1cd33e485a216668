//! Loops drawn from edges.
ghost use Rattle.std.specs.Prelude.{◌+◌, IfOk, OnOk};
ghost use Rattle.scad_geom.specs.Segment.{segments};
ghost use Rattle.scad_geom.specs.Balance.{IsBalanced};
ghost use Rattle.slice_loops.specs.Drawing.{IsLoop};
ghost use Rattle.slice_loops.specs.Remaining.{remaining, IsInOrder, IsUntaken, AllTakenTo, StayTaken};

use crate::remainder::Remaining;
use scad_geom::Pt;
use std::alloc::{AllocError, Global};

/// Takes a loop out of the remaining edges, of which the least stands at a place, and gives its vertices: it starts with the
/// least edge, and at each point goes on with the least edge that starts there, until it is back at its start.
pub(crate) fn draw(alloc: Global, left: &mut Remaining, place: usize) -> Result<Vec<Pt>, AllocError>
    requires order { IsInOrder left.old }
    requires there { IsUntaken left.old place }
    requires least { AllTakenTo left.old place }
    requires balanced { IsBalanced (segments (remaining left.old)) }
    ensures drawn { IfOk result (λ v. IsLoop (remaining left.old) v.items (remaining left.new)) }
    ensures order { OnOk result (IsInOrder left.new) }
    ensures balanced { OnOk result (IsBalanced (segments (remaining left.new))) }
    ensures taken { OnOk result (StayTaken left.old left.new) }
    ensures least { OnOk result (AllTakenTo left.new (place + 1)) }
{
    let first = left.take(place);
    let mut vertices = Vec::new(alloc);
    vertices.push(first.a)?;
    let mut at = first.b;
    'way: while at != first.a {
        let next = left.take_from(at);
        vertices.push(at)?;
        at = next.b;
    }
    Ok(vertices)
}
