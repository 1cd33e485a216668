//! Flat edges that cover a stretch of a level.
ghost use Rattle.std.specs.Prelude.{◌≡◌, ◌<◌, ◌≤◌, ◌^◌, ◌&&◌, ◌*ℤ◌, pos, int_le, length, All, unsigned_abs};
ghost use Rattle.std.specs.List.{position};
ghost use Rattle.scad_geom.specs.Limits.{coordinate_limit};
ghost use Rattle.scad_geom.specs.Within.{IsWithin, IsEdgeWithin};
ghost use Rattle.slice_border.specs.Pieces.{covers};
ghost use Rattle.slice_border.specs.Flats.{flats_from};

use crate::stops::is_flat_at;
use scad_geom::wide::times;
use scad_geom::{LeafEdge, Pt};
use slice_border::Stop;

/// The least number of a flat edge that covers the stretch between two stops, among those of the flat edges on their
/// level.
pub(crate) fn covering_edge(edges: &[LeafEdge], flats: &[u32], s: &Stop, t: &Stop) -> Option<u32>
    requires within { All (λ e. IsEdgeWithin coordinate_limit e.edge) edges.now }
    requires there { All (λ k. k < length edges.now) flats.now }
    requires flats { flats.now ≡ flats_from 0 edges.now s.now.spot.at }
    ensures { result ≡ position (covers s.now.spot t.now.spot) edges.now }
{
    'flats: for k in flats {
        if covers(&edges[*k as usize], s, t) {
            return Some(*k);
        }
    }
    None
}

fn covers(e: &LeafEdge, s: &Stop, t: &Stop) -> bool
    requires { IsEdgeWithin coordinate_limit e.now.edge }
    ensures { result ≡ covers s.now.spot t.now.spot e.now }
{
    is_flat_at(&e.edge, &s.spot.at)
        && (spans(e.edge.a, e.edge.b, s, t) || spans(e.edge.b, e.edge.a, s, t))
}

// Whether the stretch between two stops lies from the x of one point to that of another.
fn spans(from: Pt, to: Pt, s: &Stop, t: &Stop) -> bool
    requires from { IsWithin coordinate_limit from }
    requires to { IsWithin coordinate_limit to }
    ensures { result ≡ (int_le (from.x *ℤ (s.now.spot.at.d *ℤ pos s.now.spot.run)) s.now.spot.x
        && int_le t.now.spot.x (to.x *ℤ (t.now.spot.at.d *ℤ pos t.now.spot.run))) }
{
    scaled(from, s) <= s.spot.x && t.spot.x <= scaled(to, t)
}

// The x of a point over the divisor of a stop's.
fn scaled(p: Pt, s: &Stop) -> i128
    requires { IsWithin coordinate_limit p }
    ensures { result ≡ p.x *ℤ (s.now.spot.at.d *ℤ pos s.now.spot.run) }
{
    times::<21, 66>(p.x as i128, divisor(s))
}

fn divisor(s: &Stop) -> i128
    ensures value { result ≡ s.now.spot.at.d *ℤ pos s.now.spot.run }
    ensures size { unsigned_abs result ≤ 2 ^ 66 }
{
    times::<44, 22>(s.spot.at.d, s.spot.run as i128)
}
