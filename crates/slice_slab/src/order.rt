//! The order of edges at a height.
ghost use Rattle.std.specs.Prelude.{◌≡◌, ◌*ℤ◌};
ghost use Rattle.std.specs.Ordering.{is_lt, int_cmp};
ghost use Rattle.slice_slab.specs.Passages.{comes_first};

use crate::passage::Passage;
use scad_geom::wide::times;
use std::cmp::Ordering;

/// By x, then by slope, then by number.
pub(crate) fn compare(p: &Passage, q: &Passage) -> Ordering
    ensures { is_lt result ≡ comes_first p.now q.now }
{
    match by_x(p, q) {
        Ordering::Equal => match by_slope(p, q) {
            Ordering::Equal => p.number.cmp(&q.number),
            unequal => unequal,
        },
        unequal => unequal,
    }
}

pub(crate) fn by_x(p: &Passage, q: &Passage) -> Ordering
    ensures { result ≡ int_cmp (p.now.x *ℤ q.now.rise) (q.now.x *ℤ p.now.rise) }
{
    times::<89, 22>(p.x, q.rise).cmp(&times::<89, 22>(q.x, p.rise))
}

pub(crate) fn by_slope(p: &Passage, q: &Passage) -> Ordering
    ensures { result ≡ int_cmp (p.now.run *ℤ q.now.rise) (q.now.run *ℤ p.now.rise) }
{
    times::<22, 22>(p.run, q.rise).cmp(&times::<22, 22>(q.run, p.rise))
}
