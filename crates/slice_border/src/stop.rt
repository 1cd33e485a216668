//! Where edges meet a level.
ghost use Rattle.std.specs.Prelude.{◌≡◌, ◌<◌, ◌≤◌, ◌^◌, pos, ◌*ℤ◌, ◌<ℤ◌, unsigned_abs};
ghost use Rattle.std.specs.Ordering.{int_cmp};
ghost use Rattle.scad_geom.specs.Limits.{coordinate_limit};
ghost use Rattle.scad_geom.specs.Line.{rise};
ghost use Rattle.scad_geom.specs.Within.{IsEdgeWithin};
ghost use Rattle.scad_geom.specs.Level.{IsLevelWithin};
ghost use Rattle.slice_border.specs.Pieces.{spot_on, whole_spot};

use scad_geom::line::{rise, x_at};
use scad_geom::wide::times;
use scad_geom::{Edge, Level};
use slice_pieces::Spot;
use std::cmp::Ordering;

/// A spot whose numbers are small enough for the comparisons.
#[derive(Clone, Copy)]
pub struct Stop {
    pub spot: Spot,
    ghost level: { IsLevelWithin coordinate_limit spot.at },
    ghost runs: { 0 < spot.run },
    ghost run_size: { spot.run ≤ 2 ^ 22 },
    ghost x_size: { unsigned_abs spot.x ≤ 2 ^ 89 },
}

/// Where an edge that isn't flat passes a height.
pub fn spot_on(e: &Edge, at: &Level) -> Stop
    requires edge { IsEdgeWithin coordinate_limit e.now }
    requires at { IsLevelWithin coordinate_limit at.now }
    requires rises { pos 0 <ℤ rise e.now }
    ensures { result.spot ≡ spot_on e.now at.now }
{
    let spot = Spot {
        at: *at,
        x: x_at(e, at),
        run: rise(e) as u32,
    };
    Stop { spot }
}

/// Where a whole x lies at a height.
pub fn whole_spot(x: i32, at: &Level) -> Stop
    requires x { unsigned_abs x ≤ coordinate_limit }
    requires at { IsLevelWithin coordinate_limit at.now }
    ensures { result.spot ≡ whole_spot x at.now }
{
    let spot = Spot {
        at: *at,
        x: times::<21, 44>(x as i128, at.d),
        run: 1,
    };
    Stop { spot }
}

/// From left to right.
pub fn compare(s: &Stop, t: &Stop) -> Ordering
    ensures { result ≡ int_cmp (s.now.spot.x *ℤ pos t.now.spot.run) (t.now.spot.x *ℤ pos s.now.spot.run) }
{
    x_times_run(s, t).cmp(&x_times_run(t, s))
}

// The number over the run is at most 2^89 in size, the run 2^22.
fn x_times_run(s: &Stop, t: &Stop) -> i128
    ensures { result ≡ s.now.spot.x *ℤ pos t.now.spot.run }
{
    times::<89, 22>(s.spot.x, t.spot.run as i128)
}
