//! Whether two edges come near to each other.
ghost use Rattle.std.specs.Prelude.{◌≡◌, ◌⊎◌, true, false, pos};
ghost use Rattle.scad_geom.specs.Limits.{coordinate_limit};
ghost use Rattle.scad_geom.specs.Within.{IsEdgeWithin};
ghost use Rattle.scad_geom.specs.Point.{whole};
ghost use Rattle.scad_geom.specs.Half.{meant};
ghost use Rattle.scad_geom.specs.declared.half.Half.TheVariants.{Whole};
ghost use Rattle.scad_ring.specs.Octagon.{octagon};
ghost use Rattle.scad_ring.specs.Nearness.{Closed, Meets, IsClear};
ghost use Rattle.scad_near.specs.Edges.{ComeNear, AreApart};

use crate::crossing::crosses;
use scad_geom::{Edge, Half};
use scad_ring::octagon_meets;

/// Whether a point of one edge and a point of the other differ by (dx, dy) with |dx| and |dy| at most `s` micrometres and
/// |dx| + |dy| at most `u`. The edges' points are the exact ones, not only the whole ones, and their ends are among them.
/// It takes no memory.
pub fn near(e: &Edge, f: &Edge, s: u32, u: u32) -> bool
    requires first { IsEdgeWithin coordinate_limit e.now }
    requires second { IsEdgeWithin coordinate_limit f.now }
    ensures near { result ≡ true → ComeNear Closed (octagon (pos s) (pos u)) (whole e.now.a) (whole e.now.b) (whole f.now.a) (whole f.now.b) }
    ensures apart { result ≡ false → AreApart Closed (octagon (pos s) (pos u)) (whole e.now.a) (whole e.now.b) (whole f.now.a) (whole f.now.b) }
{
    if comes_to_end(e, f, s, u) {
        true
    } else if comes_to_end(f, e, s, u) {
        true
    } else {
        crosses(e, f)
    }
}

// Whether the second edge comes near to an end of the first.
fn comes_to_end(e: &Edge, f: &Edge, s: u32, u: u32) -> bool
    requires first { IsEdgeWithin coordinate_limit e.now }
    requires second { IsEdgeWithin coordinate_limit f.now }
    ensures meets { result ≡ true → Meets Closed (octagon (pos s) (pos u)) (meant Whole e.now.a) (whole f.now.a) (whole f.now.b)
        ⊎ Meets Closed (octagon (pos s) (pos u)) (meant Whole e.now.b) (whole f.now.a) (whole f.now.b) }
    ensures start { result ≡ false → IsClear Closed (octagon (pos s) (pos u)) (meant Whole e.now.a) (whole f.now.a) (whole f.now.b) }
    ensures end { result ≡ false → IsClear Closed (octagon (pos s) (pos u)) (meant Whole e.now.b) (whole f.now.a) (whole f.now.b) }
{
    if octagon_meets(f, e.a, Half::Whole, s, u) {
        true
    } else {
        octagon_meets(f, e.b, Half::Whole, s, u)
    }
}
