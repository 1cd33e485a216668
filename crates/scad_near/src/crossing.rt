//! Whether two edges cross.
ghost use Rattle.std.specs.Prelude.{◌≡◌, ◌≤◌, ◌^◌, unsigned_abs};
ghost use Rattle.scad_geom.specs.Limits.{coordinate_limit};
ghost use Rattle.scad_geom.specs.Within.{IsWithin, IsEdgeWithin};
ghost use Rattle.scad_near.specs.Tests.{offset, crosses, is_parted};

use scad_geom::whole::{minus, span, times};
use scad_geom::{Edge, Pt};

/// Whether two edges that aren't parallel have a common point: the ends of each lie on both sides of the other's line,
/// or on it.
#[tactic(auto, using(scad_geom::proofs::Casts::casts), unfolding(crate::specs::Tests::crosses))]
pub(crate) fn crosses(e: &Edge, f: &Edge) -> bool
    requires first { IsEdgeWithin coordinate_limit e.now }
    requires second { IsEdgeWithin coordinate_limit f.now }
    ensures { result ≡ crosses e.now f.now }
{
    let from = offset(f, e.a);
    let to = offset(f, e.b);
    let start = offset(e, f.a);
    let end = offset(e, f.b);
    is_parted(to, start, from, end) || is_parted(from, end, to, start)
}

// Whether two numbers are at most 0, two at least 0, and the first of each pair differ.
#[tactic(auto, unfolding(crate::specs::Tests::is_parted))]
fn is_parted(to: i64, start: i64, from: i64, end: i64) -> bool
    ensures { result ≡ is_parted to start from end }
{
    to < from && to <= 0 && start <= 0 && 0 <= from && 0 <= end
}

// How far a point lies to the left of an edge's line, times the edge's length.
#[tactic(auto, using(scad_geom::proofs::Casts::casts), unfolding(crate::specs::Tests::offset))]
fn offset(e: &Edge, p: Pt) -> i64
    requires edge { IsEdgeWithin coordinate_limit e.now }
    requires point { IsWithin coordinate_limit p }
    ensures value { result ≡ offset e.now p }
    ensures size { unsigned_abs result ≤ 2 ^ 46 }
{
    let left = times::<22, 22>(span(e.a.x, e.b.x), span(e.a.y, p.y));
    let right = times::<22, 22>(span(e.a.y, e.b.y), span(e.a.x, p.x));
    minus(left, right)
}
