//! The order of edges that go on from one place.
ghost use Rattle.std.specs.Prelude.{◌≡◌, ◌*ℤ◌, OnOk};
ghost use Rattle.std.specs.List.Sorted.{IsPermutation};
ghost use Rattle.std.specs.Ordering.{is_lt, int_cmp};
ghost use Rattle.slice_sweep.specs.Rays.{comes_first, is_parallel, AreSorted};

use crate::ray::Ray;
use scad_geom::wide::times;
use std::alloc::AllocError;
use std::cmp::Ordering;

/// From left to right, then by number.
pub(crate) fn sort(rays: &mut Vec<Ray>) -> Result<(), AllocError>
    ensures permutation { IsPermutation rays.old.items rays.new.items }
    ensures sorted { OnOk result (AreSorted rays.new.items) }
{
    rays.sort_by(compare)
}

#[tactic(auto, using(scad_geom::proofs::Casts::casts, crate::proofs::RayOrder::cmp_tests))]
fn compare(p: &Ray, q: &Ray) -> Ordering
    ensures { is_lt result ≡ comes_first p.now q.now }
{
    match by_slope(p, q) {
        Ordering::Equal => p.number.cmp(&q.number),
        unequal => unequal,
    }
}

/// Whether they coincide.
pub(crate) fn are_parallel(p: &Ray, q: &Ray) -> bool
    ensures { result ≡ is_parallel p.now q.now }
{
    matches!(by_slope(p, q), Ordering::Equal)
}

fn by_slope(p: &Ray, q: &Ray) -> Ordering
    ensures { result ≡ int_cmp (p.now.run *ℤ q.now.rise) (q.now.run *ℤ p.now.rise) }
{
    times::<22, 22>(p.run, q.rise).cmp(&times::<22, 22>(q.run, p.rise))
}
