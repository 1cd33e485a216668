//! The bundles between two neighbouring heights.
ghost use Rattle.std.specs.Prelude.{◌≡◌, ◌<◌, ◌^◌, ◌++◌, length, OnOk, IfOk, All};
ghost use Rattle.std.specs.List.Sorted.{IsPermutation};
ghost use Rattle.scad_geom.specs.Limits.{coordinate_limit};
ghost use Rattle.scad_geom.specs.Within.{IsEdgeWithin};
ghost use Rattle.scad_geom.specs.Level.{IsLevelWithin};
ghost use Rattle.scad_geom.specs.Heights.{AreNeighbours};
ghost use Rattle.slice_bundles.specs.Bundles.{AreBundles};
ghost use Rattle.slice_slab.specs.Passages.{AreSorted, numbers_of};
ghost use Rattle.slice_bundles.specs.Touching.{touching};

use crate::collect::{passages, passages_among};
use crate::group::group;
use crate::order::compare;
use crate::passage::Passage;
use scad_geom::{LeafEdge, Level};
use slice_bundles::Bundle;
use std::alloc::{AllocError, Global};

/// The edges that reach two neighbouring levels, from left to right: ordered by x at the lower one and then by slope,
/// with those that are equal in both in one bundle.
pub fn slab(
    alloc: Global,
    edges: &[LeafEdge],
    lower: &Level,
    upper: &Level,
) -> Result<Vec<Bundle>, AllocError>
    requires within { All (λ e. IsEdgeWithin coordinate_limit e.edge) edges.now }
    requires few { length edges.now < 2 ^ 32 }
    requires lower { IsLevelWithin coordinate_limit lower.now }
    requires upper { IsLevelWithin coordinate_limit upper.now }
    requires neighbours { AreNeighbours edges.now lower.now upper.now }
    ensures { IfOk result (λ v. AreBundles edges.now lower.now upper.now v.items) }
{
    let mut passages = passages(alloc, edges, lower, upper)?;
    sort(&mut passages)?;
    group(alloc, &passages)
}

/// The same, from the numbers of the edges that meet the lower level. These are put in order: first those in the
/// bundles, from left to right.
pub(crate) fn slab_among(
    alloc: Global,
    edges: &[LeafEdge],
    numbers: &mut Vec<u32>,
    lower: &Level,
    upper: &Level,
) -> Result<Vec<Bundle>, AllocError>
    requires within { All (λ e. IsEdgeWithin coordinate_limit e.edge) edges.now }
    requires few { length edges.now < 2 ^ 32 }
    requires lower { IsLevelWithin coordinate_limit lower.now }
    requires upper { IsLevelWithin coordinate_limit upper.now }
    requires neighbours { AreNeighbours edges.now lower.now upper.now }
    requires numbers { IsPermutation (touching 0 edges.now lower.now) numbers.old.items }
    ensures bundles { IfOk result (λ v. AreBundles edges.now lower.now upper.now v.items) }
    ensures numbers { OnOk result (IsPermutation numbers.old.items numbers.new.items) }
{
    let mut others = Vec::new(alloc);
    let mut passages = passages_among(alloc, edges, numbers.as_slice(), lower, upper, &mut others)?;
    sort(&mut passages)?;
    put_in_order(numbers, &passages, &others)?;
    group(alloc, &passages)
}

// The numbers of passages in their order, then others.
fn put_in_order(
    numbers: &mut Vec<u32>,
    passages: &[Passage],
    others: &[u32],
) -> Result<(), AllocError>
    ensures { OnOk result (numbers.new.items ≡ numbers_of passages.now ++ others.now) }
{
    numbers.clear();
    'passages: for p in passages {
        numbers.push(p.number)?;
    }
    numbers.extend_from_slice(others)?;
    Ok(())
}

fn sort(passages: &mut Vec<Passage>) -> Result<(), AllocError>
    ensures permutation { IsPermutation passages.old.items passages.new.items }
    ensures sorted { OnOk result (AreSorted passages.new.items) }
{
    passages.sort_by(compare)
}
