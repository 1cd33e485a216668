//! Points of the plane in the order of their heights.
ghost use Rattle.std.specs.Prelude.{◌≡◌, IfOk, map};
ghost use Rattle.std.specs.List.Sorted.{IsStrictlySortedBy};
ghost use Rattle.scad_hull.specs.Distinct.{distinct};
ghost use Rattle.scad_hull.specs.Flat.{flat_cmp};
ghost use Rattle.scad_hull.specs.Spot.{spot_of, pair_of};

use crate::distinct::distinct;
use scad_num::Num;
use std::alloc::{AllocError, Global};

/// A point with its height first, by which points are ordered.
#[derive(Clone, Copy, PartialEq, Eq, PartialOrd, Ord)]
pub(crate) struct Spot {
    pub y: Num,
    pub x: Num,
}

/// The points by their heights, and at one height from the left, each once.
pub(crate) fn in_order(alloc: Global, points: &[(Num, Num)]) -> Result<Vec<(Num, Num)>, AllocError>
    ensures value { IfOk result (λ v. v.items ≡ distinct flat_cmp points.now) }
    ensures ordered { IfOk result (λ v. IsStrictlySortedBy flat_cmp v.items) }
{
    let spots = spots_of(alloc, points)?;
    let sorted = distinct(alloc, spots.as_slice())?;
    let pairs = pairs_of(alloc, sorted.as_slice())?;
    Ok(pairs)
}

fn spots_of(alloc: Global, points: &[(Num, Num)]) -> Result<Vec<Spot>, AllocError>
    ensures { IfOk result (λ v. v.items ≡ map spot_of points.now) }
{
    points
        .iter()
        .map(|p| Spot { y: p.1, x: p.0 })
        .collect(alloc)
}

fn pairs_of(alloc: Global, spots: &[Spot]) -> Result<Vec<(Num, Num)>, AllocError>
    ensures { IfOk result (λ v. v.items ≡ map pair_of spots.now) }
{
    spots.iter().map(|s| (s.x, s.y)).collect(alloc)
}
