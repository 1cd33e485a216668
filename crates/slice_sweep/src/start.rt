//! Edges that start at a height.
ghost use Rattle.std.specs.Prelude.{◌≡◌, ◌<◌, ◌≤◌, ◌+◌, ◌++◌, ◌∷◌, [], ℕ, true, take, drop, length, OnOk, All};
ghost use Rattle.scad_geom.specs.Limits.{coordinate_limit};
ghost use Rattle.scad_geom.specs.Within.{IsEdgeWithin};
ghost use Rattle.scad_geom.specs.Level.{IsLevelWithin};
ghost use Rattle.slice_bundles.specs.Times.{times};
ghost use Rattle.slice_bundles.specs.Bundles.{edge_at, reaches};
ghost use Rattle.std.specs.List.{AllByRecursion};
ghost use Rattle.slice_sweep.specs.Strands.{bundles_of, numbers_in, fresh, AreWaiting, IsReaching};
ghost use Rattle.slice_sweep.specs.Lows.{AreLow};
ghost use Rattle.slice_sweep.specs.Places.{came_from_below, StartsKeyless, StartsAt};

use crate::key::STALE;
use crate::leave::reaches;
use crate::lows::forget_from;
use crate::place::place;
use crate::replace::weaken;
use crate::strand::Strand;
use scad_geom::{LeafEdge, Level};
use slice_bundles::Bundle;
use std::alloc::AllocError;

/// Puts the edges of these numbers that aren't flat and reach a height to their places.
pub(crate) fn start_all(
    edges: &[LeafEdge],
    strands: &mut Vec<Strand>,
    lows: &mut Vec<i64>,
    numbers: &[u32],
    at: &Level,
) -> Result<(), AllocError>
    requires within { All (λ e. IsEdgeWithin coordinate_limit e.edge) edges.now }
    requires at { IsLevelWithin coordinate_limit at.now }
    requires there { All (λ k. k < length edges.now) numbers.now }
    requires waiting { AreWaiting edges.now at.now strands.old.items }
    ensures low { OnOk result (AreLow lows.old.items strands.old.items → AreLow lows.new.items strands.new.items) }
    ensures waiting { OnOk result (AreWaiting edges.now at.now strands.new.items) }
    ensures numbers { OnOk result ((k : ℕ) → reaches (edge_at edges.now k) at.now at.now ≡ true
        → times k (numbers_in strands.new.items) ≡ times k (numbers_in strands.old.items) + times k numbers.now) }
    ensures below { OnOk result (All (StartsAt edges.now at.now) numbers.now
        → came_from_below edges.now at.now (bundles_of strands.new.items)
        ≡ came_from_below edges.now at.now (bundles_of strands.old.items)) }
    ensures keyless { OnOk result (AllByRecursion (StartsKeyless edges.now at.now) strands.old.items
        → AllByRecursion (StartsKeyless edges.now at.now) strands.new.items) }
{
    'numbers: for k in numbers {
        start(edges, strands, lows, *k, at)?;
    }
    Ok(())
}

// Puts an edge that isn't flat and reaches a height to its place.
fn start(
    edges: &[LeafEdge],
    strands: &mut Vec<Strand>,
    lows: &mut Vec<i64>,
    k: u32,
    at: &Level,
) -> Result<(), AllocError>
    requires within { All (λ e. IsEdgeWithin coordinate_limit e.edge) edges.now }
    requires at { IsLevelWithin coordinate_limit at.now }
    requires there { k < length edges.now }
    requires waiting { AreWaiting edges.now at.now strands.old.items }
    ensures low { OnOk result (AreLow lows.old.items strands.old.items → AreLow lows.new.items strands.new.items) }
    ensures waiting { OnOk result (AreWaiting edges.now at.now strands.new.items) }
    ensures numbers { OnOk result ((j : ℕ) → reaches (edge_at edges.now j) at.now at.now ≡ true
        → times j (numbers_in strands.new.items) ≡ times j (numbers_in strands.old.items) + times j (k ∷ [])) }
    ensures below { OnOk result (StartsAt edges.now at.now k
        → came_from_below edges.now at.now (bundles_of strands.new.items)
        ≡ came_from_below edges.now at.now (bundles_of strands.old.items)) }
    ensures keyless { OnOk result (AllByRecursion (StartsKeyless edges.now at.now) strands.old.items
        → AllByRecursion (StartsKeyless edges.now at.now) strands.new.items) }
{
    if !reaches(&edges[k as usize].edge, at, at) {
        return Ok(());
    }
    begin_at(edges, strands, lows, k, at)
}

fn begin_at(
    edges: &[LeafEdge],
    strands: &mut Vec<Strand>,
    lows: &mut Vec<i64>,
    k: u32,
    at: &Level,
) -> Result<(), AllocError>
    requires within { All (λ e. IsEdgeWithin coordinate_limit e.edge) edges.now }
    requires at { IsLevelWithin coordinate_limit at.now }
    requires reaching { IsReaching edges.now at.now at.now k }
    requires waiting { AreWaiting edges.now at.now strands.old.items }
    ensures low { OnOk result (AreLow lows.old.items strands.old.items → AreLow lows.new.items strands.new.items) }
    ensures waiting { OnOk result (AreWaiting edges.now at.now strands.new.items) }
    ensures numbers { OnOk result ((j : ℕ) → times j (numbers_in strands.new.items)
        ≡ times j (numbers_in strands.old.items) + times j (k ∷ [])) }
    ensures below { OnOk result (StartsAt edges.now at.now k
        → came_from_below edges.now at.now (bundles_of strands.new.items)
        ≡ came_from_below edges.now at.now (bundles_of strands.old.items)) }
    ensures keyless { OnOk result (AllByRecursion (StartsKeyless edges.now at.now) strands.old.items
        → AllByRecursion (StartsKeyless edges.now at.now) strands.new.items) }
{
    let i = place(edges, strands, k, at);
    forget_from(lows, i.saturating_sub(1));
    weaken(strands, i);
    insert(strands, k, i)
}

// Puts an edge alone to a place.
fn insert(strands: &mut Vec<Strand>, k: u32, i: usize) -> Result<(), AllocError>
    requires { i ≤ length strands.old.items }
    ensures { OnOk result (strands.new.items
        ≡ take i strands.old.items ++ (fresh ((k ∷ []) ∷ []) ++ drop i strands.old.items)) }
{
    let strand = Strand {
        bundle: Bundle::of_one(k),
        wake: STALE,
    };
    strands.insert(i, strand)?;
    Ok(())
}
