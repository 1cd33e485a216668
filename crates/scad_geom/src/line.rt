//! The line of an edge, read upwards.
ghost use Rattle.std.specs.Prelude.{◌≡◌, ◌*◌, ◌^◌, ◌<◌, ◌≤◌, ◌*ℤ◌, int_le, unsigned_abs};
ghost use Rattle.scad_geom.specs.Limits.{coordinate_limit};
ghost use Rattle.scad_geom.specs.Within.{IsWithin, IsEdgeWithin};
ghost use Rattle.scad_geom.specs.Line.{low, high, rise, run, offset, x_at};
ghost use Rattle.scad_geom.specs.Level.{IsLevelWithin};

use crate::level::Level;
use crate::point::{Edge, Pt};
use crate::wide::{minus, plus, span, times};

/// The lower end of an edge, the start of a flat one.
#[tactic(auto, using(crate::proofs::Casts::casts), unfolding(crate::specs::Line::low))]
pub fn low(e: &Edge) -> Pt
    ensures value { result ≡ low e.now }
    ensures within { IsEdgeWithin coordinate_limit e.now → IsWithin coordinate_limit result }
{
    if e.b.y < e.a.y { e.b } else { e.a }
}

/// The upper end of an edge, the end of a flat one.
#[tactic(auto, using(crate::proofs::Casts::casts), unfolding(crate::specs::Line::high))]
pub fn high(e: &Edge) -> Pt
    ensures value { result ≡ high e.now }
    ensures within { IsEdgeWithin coordinate_limit e.now → IsWithin coordinate_limit result }
{
    if e.b.y < e.a.y { e.a } else { e.b }
}

/// How far an edge rises from its lower to its upper end, in micrometres.
#[tactic(auto, using(crate::proofs::Casts::casts), unfolding(crate::specs::Line::rise))]
pub fn rise(e: &Edge) -> i128
    requires { IsEdgeWithin coordinate_limit e.now }
    ensures value { result ≡ rise e.now }
    ensures size { unsigned_abs result ≤ 2 * coordinate_limit }
{
    span(low(e).y, high(e).y)
}

/// How far an edge runs to the right on the way up, in micrometres.
#[tactic(auto, using(crate::proofs::Casts::casts), unfolding(crate::specs::Line::run))]
pub fn run(e: &Edge) -> i128
    requires { IsEdgeWithin coordinate_limit e.now }
    ensures value { result ≡ run e.now }
    ensures size { unsigned_abs result ≤ 2 * coordinate_limit }
{
    span(low(e).x, high(e).x)
}

// What places the line of an edge: its points have rise * x = run * y + offset.
/// The offset of an edge's line: rise times x less run times y, of each of its points.
#[tactic(auto, using(crate::proofs::Casts::casts), unfolding(crate::specs::Line::offset))]
pub fn offset(e: &Edge) -> i128
    requires { IsEdgeWithin coordinate_limit e.now }
    ensures value { result ≡ offset e.now }
    ensures size { unsigned_abs result ≤ 2 ^ 44 }
{
    let from = low(e);
    let up = times::<22, 21>(rise(e), from.x as i128);
    let right = times::<22, 21>(run(e), from.y as i128);
    minus(up, right)
}

/// Whether an edge's lower end doesn't lie above a height.
pub fn starts_by(e: &Edge, at: &Level) -> bool
    requires edge { IsEdgeWithin coordinate_limit e.now }
    requires level { IsLevelWithin coordinate_limit at.now }
    ensures { result ≡ int_le ((low e.now).y *ℤ at.now.d) at.now.n }
{
    times::<21, 44>(low(e).y as i128, at.d) <= at.n
}

/// Whether an edge's upper end doesn't lie below a height.
pub fn ends_from(e: &Edge, at: &Level) -> bool
    requires edge { IsEdgeWithin coordinate_limit e.now }
    requires level { IsLevelWithin coordinate_limit at.now }
    ensures { result ≡ int_le at.now.n ((high e.now).y *ℤ at.now.d) }
{
    at.n <= times::<21, 44>(high(e).y as i128, at.d)
}

/// The x of the line of an edge that isn't flat, at a height: this over its rise and the divisor of the height.
#[tactic(auto, using(crate::proofs::Casts::casts), unfolding(crate::specs::Line::x_at))]
pub fn x_at(e: &Edge, at: &Level) -> i128
    requires edge { IsEdgeWithin coordinate_limit e.now }
    requires level { IsLevelWithin coordinate_limit at.now }
    ensures value { result ≡ x_at e.now at.now.n at.now.d }
    ensures size { unsigned_abs result ≤ 2 ^ 89 }
{
    let slant = times::<22, 64>(run(e), at.n);
    let start = times::<44, 44>(offset(e), at.d);
    plus(slant, start)
}
