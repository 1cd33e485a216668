//! Spots rounded to whole points, and edges with a length.
ghost use Rattle.std.specs.Prelude.{◌≡◌, ◌≤◌, ◌*◌, ◌*ℤ◌, pos, unsigned_abs};
ghost use Rattle.scad_geom.specs.Limits.{coordinate_limit};
ghost use Rattle.scad_geom.specs.Within.{IsWithin};
ghost use Rattle.slice_pieces.specs.Spots.{point_of, IsSpotWithin};
ghost use Rattle.winding_laws.specs.Edges.{rounded, has_length};

use crate::piece::Spot;
use scad_geom::wide::times;
use scad_geom::{Edge, Pt, round_half_down};

/// Whether the ends of an edge differ.
pub fn has_length(e: &Edge) -> bool
    ensures { result ≡ has_length e.now }
{
    e.a != e.b
}

/// The nearest whole point, halves down.
pub fn rounded(s: &Spot) -> Pt
    requires { IsSpotWithin coordinate_limit s.now }
    ensures value { result ≡ rounded (point_of s.now) }
    ensures within { IsWithin coordinate_limit result }
{
    // at most 2.2 * 10^19
    let d = times::<44, 22>(s.at.d, s.run as i128);
    Pt {
        x: round_half_down(s.x, d),
        y: round_half_down(height(s), d),
    }
}

fn height(s: &Spot) -> i128
    requires { IsSpotWithin coordinate_limit s.now }
    ensures value { result ≡ s.now.at.n *ℤ pos s.now.run }
    ensures size { unsigned_abs result ≤ coordinate_limit * unsigned_abs (s.now.at.d *ℤ pos s.now.run) }
{
    times::<64, 22>(s.at.n, s.run as i128)
}
