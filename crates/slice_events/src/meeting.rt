//! Where two edges meet.
ghost use Rattle.std.specs.Prelude.{◌≡◌, ◌<◌, ◌≤◌, ◌&&◌, ◌||◌, not, pos, int_le, true, unsigned_abs};
ghost use Rattle.scad_geom.specs.Limits.{coordinate_limit, divisor_limit};
ghost use Rattle.scad_geom.specs.Within.{IsWithin};
ghost use Rattle.scad_geom.specs.Line.{low, high, rise, left_of, lean, apart};
ghost use Rattle.scad_geom.specs.Sign.{is_zero};
ghost use Rattle.scad_geom.specs.Meeting.{straddles, meets, meeting};
ghost use Rattle.scad_geom.specs.Level.{IsLevelWithin};
ghost use Rattle.scad_geom.specs.Point.{whole, is_same_point};
ghost use Rattle.slice_events.specs.Levels.{share_end, crosses};
ghost use Rattle.slice_events.specs.KeptHeights.{is_beside, is_rising, are_ends_beside, is_kept};

use crate::line::Line;
use scad_geom::{Edge, Level, Pt};

/// Whether two edges that aren't parallel have a common point that isn't an end of both.
pub(crate) fn crosses(e: &Line, f: &Line) -> bool
    ensures { result ≡ crosses e.now.edge f.now.edge }
{
    meets(e, f) && !share_end(&e.edge, &f.edge)
}

fn share_end(e: &Edge, f: &Edge) -> bool
    ensures { result ≡ share_end e.now f.now }
{
    (are_same(e.a, f.a) || are_same(e.a, f.b)) || (are_same(e.b, f.a) || are_same(e.b, f.b))
}

#[tactic(auto, using(scad_geom::proofs::Balance::same_whole))]
fn are_same(p: Pt, q: Pt) -> bool
    ensures { result ≡ is_same_point (whole p) (whole q) }
{
    p.x == q.x && p.y == q.y
}

// Whether two edges that aren't parallel have a common point. Few pairs are parallel, so that is asked last.
#[tactic(auto, using(crate::proofs::TestOrder::both_then_third), unfolding(scad_geom::specs::Meeting::meets))]
fn meets(e: &Line, f: &Line) -> bool
    ensures { result ≡ meets e.now.edge f.now.edge }
{
    (straddles(e, f) && straddles(f, e)) && is_slanted(e, f)
}

fn is_slanted(e: &Line, f: &Line) -> bool
    ensures { result ≡ not (is_zero (lean e.now.edge f.now.edge)) }
{
    e.lean(f) != 0
}

// Whether the ends of f lie on both sides of the line of e, or on it.
#[tactic(auto, using(scad_geom::proofs::Casts::casts), unfolding(scad_geom::specs::Meeting::straddles))]
fn straddles(e: &Line, f: &Line) -> bool
    ensures { result ≡ straddles e.now.edge f.now.edge }
{
    are_apart(e.left_of(f.low), e.left_of(f.high))
}

fn are_apart(s: i64, t: i64) -> bool
    ensures { result ≡ ((int_le s (pos 0) && int_le (pos 0) t) || (int_le (pos 0) s && int_le t (pos 0))) }
{
    (s <= 0 && 0 <= t) || (0 <= s && t <= 0)
}

/// Whether two edges, of which it's known whether they cross, do so at a height that isn't one of an end.
#[tactic(auto, unfolding(crate::specs::KeptHeights::is_kept))]
pub(crate) fn is_kept(e: &Line, f: &Line, cross: bool) -> bool
    requires { cross ≡ crosses e.now.edge f.now.edge }
    ensures { result ≡ is_kept e.now.edge f.now.edge }
{
    cross && ((is_rising(e) && is_rising(f)) && are_ends_beside(e, f))
}

#[tactic(auto, unfolding(crate::specs::KeptHeights::are_ends_beside))]
fn are_ends_beside(e: &Line, f: &Line) -> bool
    ensures { result ≡ are_ends_beside e.now.edge f.now.edge }
{
    (is_beside(e, f.low) && is_beside(e, f.high)) && (is_beside(f, e.low) && is_beside(f, e.high))
}

#[tactic(auto, using(scad_geom::proofs::Casts::casts), unfolding(crate::specs::KeptHeights::is_beside))]
fn is_beside(e: &Line, p: Pt) -> bool
    requires { IsWithin coordinate_limit p }
    ensures { result ≡ is_beside e.now.edge p }
{
    e.left_of(p) != 0
}

#[tactic(auto, using(scad_geom::proofs::Casts::casts), unfolding(crate::specs::KeptHeights::is_rising))]
fn is_rising(e: &Line) -> bool
    ensures { result ≡ is_rising e.now.edge }
{
    e.rise != 0
}

/// The height of the common point of two edges that meet.
pub(crate) fn meeting(e: &Line, f: &Line) -> Level
    requires meets { meets e.now.edge f.now.edge ≡ true }
    ensures value { result ≡ meeting e.now.edge f.now.edge }
    ensures within { IsLevelWithin coordinate_limit result }
{
    level_of_lines(e, f)
}

#[tactic(auto, using(scad_geom::proofs::Casts::casts), unfolding(scad_geom::specs::Meeting::meeting))]
fn level_of_lines(e: &Line, f: &Line) -> Level
    ensures value { result ≡ meeting e.now.edge f.now.edge }
    ensures divisor { unsigned_abs (lean e.now.edge f.now.edge) ≤ divisor_limit }
{
    let (lean, apart) = (e.lean(f) as i128, e.apart(f));
    if lean > 0 {
        Level { n: -apart, d: lean }
    } else {
        Level { n: apart, d: -lean }
    }
}
