//! Points in order, each once.
ghost use Rattle.std.specs.Prelude.{◌≡◌, IfOk};
ghost use Rattle.std.specs.List.Sorted.{IsStrictlySortedBy};
ghost use Rattle.scad_hull.specs.Distinct.{distinct};

use std::alloc::{AllocError, Global};
use std::collections::BTreeSet;

/// The points in their order, each once.
pub(crate) fn distinct<P: Ord + Copy>(alloc: Global, points: &[P]) -> Result<Vec<P>, AllocError>
    ensures value { IfOk result (λ v. v.items ≡ distinct P.cmp points.now) }
    ensures ordered { IfOk result (λ v. IsStrictlySortedBy P.cmp v.items) }
{
    let mut found = BTreeSet::new(alloc);
    'points: for p in points {
        if found.insert(*p).is_err() {
            return Err(AllocError);
        }
    }
    found.into_iter().collect(alloc)
}
