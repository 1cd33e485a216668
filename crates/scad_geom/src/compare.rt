//! Exact comparisons of heights, and of edges at a height: by products, each within 127 bits.
ghost use Rattle.std.specs.Prelude.{◌≡◌, ◌*◌, ◌<◌, ◌*ℤ◌};
ghost use Rattle.std.specs.Ordering.{int_cmp};
ghost use Rattle.scad_geom.specs.Limits.{coordinate_limit};
ghost use Rattle.scad_geom.specs.Within.{IsWithin, IsEdgeWithin};
ghost use Rattle.scad_geom.specs.Point.{whole};
ghost use Rattle.scad_geom.specs.Winding.{side_by};
ghost use Rattle.scad_geom.specs.Line.{rise, run, x_at};
ghost use Rattle.scad_geom.specs.Level.{IsLevelWithin};
ghost use Rattle.scad_geom.specs.PointOrder.{point_cmp};
ghost use Rattle.scad_geom.specs.Sign.{sign_of};

use crate::level::Level;
use crate::line::{rise, run, x_at};
use crate::point::{Edge, Pt};
use crate::wide::{minus, span, times};
use std::cmp::Ordering;

/// The order of two points: by y, then by x.
pub fn cmp_point(p: Pt, q: Pt) -> Ordering
    ensures { result ≡ point_cmp p q }
{
    p.y.cmp(&q.y).then(p.x.cmp(&q.x))
}

/// The order of two heights.
pub fn cmp_level(p: &Level, q: &Level) -> Ordering
    requires p { IsLevelWithin coordinate_limit p.now }
    requires q { IsLevelWithin coordinate_limit q.now }
    ensures { result ≡ int_cmp (p.now.n *ℤ q.now.d) (q.now.n *ℤ p.now.d) }
{
    // n is at most 2^64 in size and d at most 2^44.
    let left = times::<64, 44>(p.n, q.d);
    let right = times::<64, 44>(q.n, p.d);
    left.cmp(&right)
}

/// The order of two edges by their x at a height that both reach; neither is flat.
pub fn cmp_x_at(e: &Edge, f: &Edge, at: &Level) -> Ordering
    requires e { IsEdgeWithin coordinate_limit e.now }
    requires f { IsEdgeWithin coordinate_limit f.now }
    requires level { IsLevelWithin coordinate_limit at.now }
    ensures { result ≡ int_cmp (x_at e.now at.now.n at.now.d *ℤ rise f.now) (x_at f.now at.now.n at.now.d *ℤ rise e.now) }
{
    // The numbers over the rises are at most 2^89 in size, the rises 2^22.
    let left = times::<89, 22>(x_at(e, at), rise(f));
    let right = times::<89, 22>(x_at(f, at), rise(e));
    left.cmp(&right)
}

/// The order of two edges by how far they run to the right for each step upwards; neither is flat.
pub fn cmp_slope(e: &Edge, f: &Edge) -> Ordering
    requires e { IsEdgeWithin coordinate_limit e.now }
    requires f { IsEdgeWithin coordinate_limit f.now }
    ensures { result ≡ int_cmp (run e.now *ℤ rise f.now) (run f.now *ℤ rise e.now) }
{
    let left = times::<22, 22>(run(e), rise(f));
    let right = times::<22, 22>(run(f), rise(e));
    left.cmp(&right)
}

/// On which side of an edge a point lies: 1 to its left, -1 to its right, 0 on its line.
#[tactic(auto, using(crate::proofs::Casts::casts, crate::proofs::CommonDivisor::side_of_wholes))]
pub fn side(e: &Edge, p: Pt) -> i8
    requires edge { IsEdgeWithin coordinate_limit e.now }
    requires point { IsWithin coordinate_limit p }
    ensures { result ≡ sign_of (side_by (whole p) (whole e.now.a) (whole e.now.b)) }
{
    let left = times::<22, 22>(span(e.a.x, e.b.x), span(e.a.y, p.y));
    let right = times::<22, 22>(span(e.a.y, e.b.y), span(e.a.x, p.x));
    sign(minus(left, right))
}

fn sign(z: i128) -> i8
    ensures { result ≡ sign_of z }
{
    if z > 0 {
        1
    } else if z < 0 {
        -1
    } else {
        0
    }
}
