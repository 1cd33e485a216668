//! Whether two spots stand for one point, and their order.
ghost use Rattle.std.specs.Prelude.{◌≡◌, ◌&&◌, ◌*ℤ◌, pos};
ghost use Rattle.std.specs.Ordering.{int_eq, int_cmp, ordering_then};
ghost use Rattle.scad_geom.specs.Limits.{coordinate_limit};
ghost use Rattle.slice_pieces.specs.Spots.{is_same_spot, IsSpotWithin};
ghost use Rattle.slice_snap.specs.Joints.{AreOfOneLevel};
ghost use Rattle.slice_snap.specs.EndOrder.{spot_cmp};

use scad_geom::Level;
use scad_geom::wide::times;
use slice_pieces::Spot;
use std::cmp::Ordering;

/// Whether two spots are the same point; where their heights are equal, their levels are too.
pub(crate) fn is_same_spot(s: &Spot, t: &Spot) -> bool
    requires s { IsSpotWithin coordinate_limit s.now }
    requires t { IsSpotWithin coordinate_limit t.now }
    requires level { AreOfOneLevel s.now t.now }
    ensures { result ≡ is_same_spot s.now t.now }
{
    is_same_level(&s.at, &t.at) && is_same_place(s, t)
}

/// The order of spots: by the numbers of their levels, whichever lies higher, then from left to right.
pub(crate) fn compare_spots(s: &Spot, t: &Spot) -> Ordering
    requires s { IsSpotWithin coordinate_limit s.now }
    requires t { IsSpotWithin coordinate_limit t.now }
    ensures { result ≡ spot_cmp s.now t.now }
{
    match compare_levels(&s.at, &t.at) {
        Ordering::Equal => x_times_run(s, t).cmp(&x_times_run(t, s)),
        unequal => unequal,
    }
}

fn compare_levels(p: &Level, q: &Level) -> Ordering
    ensures { result ≡ ordering_then (int_cmp p.now.n q.now.n) (int_cmp p.now.d q.now.d) }
{
    p.n.cmp(&q.n).then(p.d.cmp(&q.d))
}

fn is_same_level(p: &Level, q: &Level) -> bool
    ensures { result ≡ (int_eq p.now.n q.now.n && int_eq p.now.d q.now.d) }
{
    p.n == q.n && p.d == q.d
}

// Of spots at one level.
fn is_same_place(s: &Spot, t: &Spot) -> bool
    requires s { IsSpotWithin coordinate_limit s.now }
    requires t { IsSpotWithin coordinate_limit t.now }
    ensures { result ≡ int_eq (s.now.x *ℤ pos t.now.run) (t.now.x *ℤ pos s.now.run) }
{
    x_times_run(s, t) == x_times_run(t, s)
}

// The number over the run is at most 2^89 in size, the run 2^22.
fn x_times_run(s: &Spot, t: &Spot) -> i128
    requires s { IsSpotWithin coordinate_limit s.now }
    requires t { IsSpotWithin coordinate_limit t.now }
    ensures { result ≡ s.now.x *ℤ pos t.now.run }
{
    times::<89, 22>(s.x, t.run as i128)
}
