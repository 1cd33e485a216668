//! All pieces of a border.
ghost use Rattle.std.specs.Prelude.{◌<◌, ◌≤◌, ◌+◌, ◌^◌, [], length, drop, true, false, OnOk, IfOk, IfErr, All};
ghost use Rattle.std.specs.List.Sorted.{IsPermutation};
ghost use Rattle.scad_geom.specs.Limits.{coordinate_limit};
ghost use Rattle.scad_geom.specs.Within.{IsEdgeWithin};
ghost use Rattle.scad_geom.specs.Level.{IsLevelWithin};
ghost use Rattle.slice_events.specs.Limits.{crossing_limit};
ghost use Rattle.slice_events.specs.Levels.{crossings, AreLevels};
ghost use Rattle.slice_border.specs.Pieces.{AreLevelPieces, ArePieces};
ghost use Rattle.scad_geom.specs.Leaves.{AreLeavesBalanced};
ghost use Rattle.slice_bundles.specs.Bundles.{edge_at, AreBundles};
ghost use Rattle.slice_bundles.specs.Touching.{touching};
ghost use Rattle.slice_slab.specs.Active.{live_in, bundles_in, IsReadyFor, StandsAt};
ghost use Rattle.slice_pieces.specs.Pieces.{HaveOneLevel, IsPieceWithin, ArePiecesBalanced};
ghost use Rattle.slice_pieces.specs.Naming.{AreNamed};
ghost use Rattle.slice_border.specs.Centre.{AreCentresWound};
ghost use Rattle.slice_border.specs.Fault.{IsRefusal};
ghost use Rattle.slice_border.specs.Levels.{level_at};
ghost use Rattle.slice_bool.specs.Parts.{AreUpToNext, Extends};
ghost use Rattle.slice_border.specs.Keeping.{Tells};
ghost use Rattle.slice_bool.specs.BothSides.{IsSide};

use crate::beside::{Sides, Valued, nothing_beside};
use crate::flat::push_flat_pieces;
use crate::near::edges_near;
use crate::slab::{Slab, left_values, push_slab_pieces};
use crate::sweep::Sweep;
use scad_geom::{LeafEdge, Level, Shape};
use slice_border::{BoolFault, Tally};
use slice_events::{EventFault, levels};
use slice_pieces::Piece;
use slice_slab::Active;
use std::alloc::{AllocError, Global};

/// The pieces of the border of a shape over the leaves of an edge list, each with the inside on its left: level by
/// level upwards, the flat pieces on a level before those between it and the next, each group from left to right.
///
/// They wind once round each cell centre that the shape holds and round no other, and where the edges of each leaf are
/// closed, as many start at each point as end there. Their ends are within the limit of the coordinates. Each lies along the
/// edge of its name, and no two of one name overlap. It is refused exactly where there are more edges than the limit, and
/// then where more than 2,000,000 pairs cross.
pub fn pieces(
    alloc: Global,
    edges: &[LeafEdge],
    shape: &Shape,
    limit: u32,
) -> Result<Vec<Piece>, BoolFault>
    requires { All (λ e. IsEdgeWithin coordinate_limit e.edge) edges.now }
    ensures pieces { IfOk result (λ v. ArePieces edges.now shape.now v.items) }
    ensures levels { IfOk result (λ v. HaveOneLevel v.items) }
    ensures within { IfOk result (λ v. All (IsPieceWithin coordinate_limit) v.items) }
    ensures balanced { IfOk result (λ v. AreLeavesBalanced edges.now → ArePiecesBalanced v.items) }
    ensures centres { IfOk result (λ v. AreCentresWound edges.now shape.now v.items) }
    ensures named { IfOk result (λ v. AreNamed (length edges.now) (edge_at edges.now) v.items) }
    ensures few { IfOk result (λ v. length edges.now ≤ limit) }
    ensures accepted { IfOk result (λ v. crossings edges.now ≤ crossing_limit) }
    ensures refused { IfErr result (IsRefusal (length edges.now) limit (crossings edges.now)) }
{
    let count = edges.len() as u64;
    if count > limit as u64 {
        return Err(BoolFault::Edges(count));
    }
    match levels(alloc, edges) {
        Ok(levels) => match all_pieces(alloc, edges, shape, &levels) {
            Ok(pieces) => Ok(pieces),
            Err(_) => Err(BoolFault::Memory),
        },
        Err(EventFault::Memory) => Err(BoolFault::Memory),
        Err(EventFault::Crossings(count)) => Err(BoolFault::Crossings(count)),
    }
}

fn all_pieces(
    alloc: Global,
    edges: &[LeafEdge],
    shape: &Shape,
    levels: &[Level],
) -> Result<Vec<Piece>, AllocError>
    requires edges { All (λ e. IsEdgeWithin coordinate_limit e.edge) edges.now }
    requires few { length edges.now < 2 ^ 32 }
    requires within { All (IsLevelWithin coordinate_limit) levels.now }
    requires levels { AreLevels edges.now levels.now }
    ensures { IfOk result (λ v. AreLevelPieces edges.now shape.now levels.now v.items) }
{
    let sweep = Sweep {
        alloc,
        edges,
        shape,
    };
    let mut climb = Climb {
        active: Active::new(alloc, edges)?,
        tally: Tally::new(alloc, edges, shape)?,
        below: nothing_beside(alloc)?,
    };
    let mut out = Vec::new(alloc);
    'levels: for i in 0..levels.len() {
        push_level(&sweep, &mut climb, &mut out, levels, i)?;
    }
    Ok(out)
}

// What goes from level to level: the edges that meet one, the tally, and what lies just below it.
#[derive(Drop)]
struct Climb {
    active: Active,
    tally: Tally,
    below: Valued,
}

// The pieces on a level and between it and the next.
fn push_level(
    sweep: &Sweep<'_>,
    climb: &mut Climb,
    out: &mut Vec<Piece>,
    levels: &[Level],
    i: usize,
) -> Result<(), AllocError>
    requires within { All (IsLevelWithin coordinate_limit) levels.now }
    requires levels { AreLevels sweep.now.edges.now levels.now }
    requires there { i < length levels.now }
    requires active { IsReadyFor sweep.now.edges.now (level_at levels.now i) climb.old.active }
    requires tally { Tells sweep.now.edges.now sweep.now.shape.now [] climb.old.tally }
    requires below { IsSide false sweep.now.edges.now sweep.now.shape.now (level_at levels.now i) climb.old.below }
    ensures pieces { OnOk result (Extends (AreUpToNext sweep.now.edges.now sweep.now.shape.now (drop i levels.now))
        out.old.items out.new.items) }
    ensures active { OnOk result (StandsAt sweep.now.edges.now (level_at levels.now i) climb.new.active) }
    ensures tally { OnOk result (Tells sweep.now.edges.now sweep.now.shape.now [] climb.new.tally) }
    ensures below { OnOk result (i + 1 < length levels.now
        → IsSide false sweep.now.edges.now sweep.now.shape.now (level_at levels.now (i + 1)) climb.new.below) }
{
    rise(sweep, &mut climb.active, levels, i)?;
    let at = &levels[i];
    let near = edges_near(sweep.alloc, sweep.edges, climb.active.touching(), at)?;
    let above = side_above(sweep, &mut climb.active, &mut climb.tally, levels, i)?;
    push_flat_pieces(
        sweep,
        &near,
        &Sides {
            below: &climb.below,
            above: &above,
        },
        out,
        at,
    )?;
    if i + 1 < levels.len() {
        let slab = Slab {
            lower: at,
            upper: &levels[i + 1],
            side: &above,
        };
        push_slab_pieces(sweep, &slab, out)?;
    }
    climb.below = above;
    Ok(())
}

// The bundles above a level, taken out, with the values beside them.
fn side_above(
    sweep: &Sweep<'_>,
    active: &mut Active,
    tally: &mut Tally,
    levels: &[Level],
    i: usize,
) -> Result<Valued, AllocError>
    requires levels { AreLevels sweep.now.edges.now levels.now }
    requires there { i < length levels.now }
    requires bundles { i + 1 < length levels.now
        → AreBundles sweep.now.edges.now (level_at levels.now i) (level_at levels.now (i + 1)) (bundles_in active.old) }
    requires stands { StandsAt sweep.now.edges.now (level_at levels.now i) active.old }
    requires tally { Tells sweep.now.edges.now sweep.now.shape.now [] tally.old }
    ensures above { IfOk result (IsSide true sweep.now.edges.now sweep.now.shape.now (level_at levels.now i)) }
    ensures below { IfOk result (λ v. i + 1 < length levels.now
        → IsSide false sweep.now.edges.now sweep.now.shape.now (level_at levels.now (i + 1)) v) }
    ensures bundles { IfOk result (λ v. i + 1 < length levels.now
        → AreBundles sweep.now.edges.now (level_at levels.now i) (level_at levels.now (i + 1)) v.bundles.items) }
    ensures stands { IfOk result (λ v. StandsAt sweep.now.edges.now (level_at levels.now i) active.new) }
    ensures tally { IfOk result (λ v. Tells sweep.now.edges.now sweep.now.shape.now [] tally.new) }
{
    if i + 1 < levels.len() {
        let bundles = active.take_bundles();
        let values = left_values(sweep, tally, &bundles)?;
        Ok(Valued { bundles, values })
    } else {
        nothing_beside(sweep.alloc)
    }
}

// Lifts the edges' height to a level, with the bundles between it and the next.
fn rise(
    sweep: &Sweep<'_>,
    active: &mut Active,
    levels: &[Level],
    i: usize,
) -> Result<(), AllocError>
    requires within { All (IsLevelWithin coordinate_limit) levels.now }
    requires levels { AreLevels sweep.now.edges.now levels.now }
    requires there { i < length levels.now }
    requires active { IsReadyFor sweep.now.edges.now (level_at levels.now i) active.old }
    ensures live { OnOk result
        (IsPermutation (touching 0 sweep.now.edges.now (level_at levels.now i)) (live_in active.new)) }
    ensures bundles { OnOk result (i + 1 < length levels.now
        → AreBundles sweep.now.edges.now (level_at levels.now i) (level_at levels.now (i + 1)) (bundles_in active.new)) }
    ensures stands { OnOk result (StandsAt sweep.now.edges.now (level_at levels.now i) active.new) }
{
    if i + 1 < levels.len() {
        active.advance(sweep.edges, &levels[i], &levels[i + 1])
    } else {
        active.lift(sweep.edges, &levels[i])
    }
}
