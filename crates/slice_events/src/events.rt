//! The levels of a list of edges.
ghost use Rattle.std.specs.Prelude.{◌≡◌, ◌^◌, ◌<◌, ◌≤◌, length, OnOk, IfOk, IfErr, All};
ghost use Rattle.scad_geom.specs.Limits.{coordinate_limit};
ghost use Rattle.scad_geom.specs.Within.{IsEdgeWithin};
ghost use Rattle.scad_geom.specs.Level.{IsLevelWithin};
ghost use Rattle.slice_events.specs.Limits.{crossing_limit};
ghost use Rattle.slice_events.specs.Levels.{crossings, AreLevels};
ghost use Rattle.slice_events.specs.Refusal.{IsCrossings, IsAfterAll};
ghost use Rattle.slice_events.specs.Boxes.{comparisons, raised};
ghost use Rattle.slice_events.specs.Collection.{levels_in};
ghost use Rattle.slice_events.specs.AllPairs.{IsEmpty, IsFoundOf, AreOtherHeights};

use crate::buckets::compare_all;
use crate::comparison::Found;
use crate::distinct::{distinct, sort};
use crate::ends::push_ends;
use crate::height::Height;
use crate::lines::lines_of;
use crate::stay::{bucket_height, stays};
use scad_geom::{LeafEdge, Level};
use std::alloc::{AllocError, Global};

/// The greatest number of crossings that is taken.
pub const CROSSING_LIMIT: u64 = 2_000_000;

/// Why levels were refused.
#[derive(Debug, Drop)]
pub enum EventFault {
    /// Memory ran out.
    Memory,
    /// This many pairs of edges cross, more than `CROSSING_LIMIT`.
    Crossings(u64),
}

/// The distinct heights of all ends of edges and of all points where two edges that aren't parallel meet, ascending.
/// It is refused exactly where more than `CROSSING_LIMIT` pairs cross: are not parallel and have a common point that
/// isn't an end of both.
pub fn levels(alloc: Global, edges: &[LeafEdge]) -> Result<Vec<Level>, EventFault>
    requires within { All (λ e. IsEdgeWithin coordinate_limit e.edge) edges.now }
    requires few { length edges.now < 2 ^ 32 }
    ensures levels { IfOk result (λ v. AreLevels edges.now v.items) }
    ensures within { IfOk result (λ v. All (IsLevelWithin coordinate_limit) v.items) }
    ensures accepted { IfOk result (λ v. crossings edges.now ≤ crossing_limit) }
    ensures refused { IfErr result (IsCrossings (crossings edges.now)) }
    ensures limit { CROSSING_LIMIT ≡ crossing_limit }
{
    let mut tests = 0;
    levels_counted(alloc, edges, &mut tests)
}

/// `levels`, with `tests` raised by one for each pair of edges that is compared, those whose boxes have a common point;
/// it stands at the greatest value where it would pass it.
pub fn levels_counted(
    alloc: Global,
    edges: &[LeafEdge],
    tests: &mut u64,
) -> Result<Vec<Level>, EventFault>
    requires within { All (λ e. IsEdgeWithin coordinate_limit e.edge) edges.now }
    requires few { length edges.now < 2 ^ 32 }
    ensures levels { IfOk result (λ v. AreLevels edges.now v.items) }
    ensures within { IfOk result (λ v. All (IsLevelWithin coordinate_limit) v.items) }
    ensures accepted { IfOk result (λ v. crossings edges.now ≤ crossing_limit) }
    ensures refused { IfErr result (IsCrossings (crossings edges.now)) }
    ensures counted { IfOk result (λ v. tests.new ≡ raised tests.old (comparisons edges.now)) }
    ensures counted_refused { IfErr result (IsAfterAll (tests.new ≡ raised tests.old (comparisons edges.now))) }
    ensures rising { tests.old ≤ tests.new }
{
    let mut found = Found {
        tests: 0,
        count: 0,
        heights: Vec::new(alloc),
    };
    let compared = find(alloc, &mut found, edges);
    *tests = tests.saturating_add(found.tests);
    match compared {
        Ok(()) => levels_of(alloc, edges, found),
        Err(_) => Err(EventFault::Memory),
    }
}

// Compares the pairs of edges.
fn find(alloc: Global, found: &mut Found, edges: &[LeafEdge]) -> Result<(), AllocError>
    requires within { All (λ e. IsEdgeWithin coordinate_limit e.edge) edges.now }
    requires few { length edges.now < 2 ^ 32 }
    requires first { IsEmpty found.old }
    ensures { OnOk result (IsFoundOf edges.now found.new) }
{
    let lines = lines_of(alloc, edges)?;
    let stays = stays(alloc, &lines, bucket_height(&lines))?;
    compare_all(found, &lines, &stays)
}

fn levels_of(alloc: Global, edges: &[LeafEdge], found: Found) -> Result<Vec<Level>, EventFault>
    requires within { All (λ e. IsEdgeWithin coordinate_limit e.edge) edges.now }
    requires found { IsFoundOf edges.now found }
    ensures levels { IfOk result (λ v. AreLevels edges.now v.items) }
    ensures within { IfOk result (λ v. All (IsLevelWithin coordinate_limit) v.items) }
    ensures accepted { IfOk result (λ v. crossings edges.now ≤ crossing_limit) }
    ensures refused { IfErr result (IsCrossings (crossings edges.now)) }
{
    if found.count > CROSSING_LIMIT {
        return Err(EventFault::Crossings(found.count));
    }
    match ascending(alloc, edges, found.heights) {
        Ok(levels) => Ok(levels),
        Err(_) => Err(EventFault::Memory),
    }
}

// The heights of all ends, and these, each once.
fn ascending(
    alloc: Global,
    edges: &[LeafEdge],
    mut heights: Vec<Height>,
) -> Result<Vec<Level>, AllocError>
    requires within { All (λ e. IsEdgeWithin coordinate_limit e.edge) edges.now }
    requires heights { AreOtherHeights edges.now (levels_in heights.items) }
    ensures levels { IfOk result (λ v. AreLevels edges.now v.items) }
    ensures within { IfOk result (λ v. All (IsLevelWithin coordinate_limit) v.items) }
{
    push_ends(alloc, &mut heights, edges)?;
    sort(&mut heights)?;
    distinct(alloc, &heights)
}
