//! Wake-up keys: whole parts of a micrometre, rounded down.
ghost use Rattle.std.specs.Prelude.{◌≡◌, ◌⊎◌, ◌≤◌, ◌^◌, true, ℤ, pos, ◌+ℤ◌, ◌*ℤ◌, ◌<ℤ◌, ◌≤ℤ◌, unsigned_abs};
ghost use Rattle.scad_geom.specs.Limits.{coordinate_limit};
ghost use Rattle.scad_geom.specs.Within.{IsEdgeWithin};
ghost use Rattle.scad_geom.specs.Level.{IsLevelWithin};
ghost use Rattle.scad_geom.specs.Line.{lean, apart};
ghost use Rattle.slice_sweep.specs.Keys.{parts, IsBelowKey, stale};

use scad_geom::line::{offset, rise, run};
use scad_geom::wide::{minus, times};
use scad_geom::{Edge, Level};

/// The key of what is looked at in any case.
pub(crate) const STALE: i64 = -4_398_046_511_104;

/// The greatest key that isn't above a height.
pub(crate) fn key_of(at: &Level) -> i128
    requires { IsLevelWithin coordinate_limit at.now }
    ensures { (wake : ℤ) → result <ℤ wake → IsBelowKey at.now wake }
{
    floor(times::<64, 20>(at.n, 1_048_576), at.d)
}

/// Whether a height lies below a key.
pub(crate) fn is_below(at: &Level, key: i64) -> bool
    requires { IsLevelWithin coordinate_limit at.now }
    ensures { result ≡ true → IsBelowKey at.now key }
{
    times::<64, 20>(at.n, 1_048_576) < times::<63, 44>(key as i128, at.d)
}

/// A key that isn't above a whole height.
pub(crate) fn whole_key(y: i32) -> i64
    ensures { result ≡ y *ℤ parts }
{
    y as i64 * 1_048_576
}

/// A key up to which an edge stays on the left of another that it leans to, no greater than another key.
pub(crate) fn meeting_key(e: &Edge, f: &Edge, most: i64) -> i64
    requires e { IsEdgeWithin coordinate_limit e.now }
    requires f { IsEdgeWithin coordinate_limit f.now }
    ensures most { result ≤ℤ most }
    ensures meeting { pos 0 <ℤ lean e.now f.now
        → (result ≤ℤ stale) ⊎ ((result *ℤ lean e.now f.now) ≤ℤ (apart f.now e.now *ℤ parts)) }
{
    let lean = lean(e, f);
    if lean > 0 {
        least(floor(times::<67, 20>(apart(f, e), 1_048_576), lean), most)
    } else {
        most
    }
}

fn least(key: i128, most: i64) -> i64
    ensures most { result ≤ℤ most }
    ensures key { (result ≤ℤ stale) ⊎ (result ≤ℤ key) }
{
    if most < STALE || key >= most as i128 {
        most
    } else if key < STALE as i128 {
        STALE
    } else {
        key as i64
    }
}

/// The greatest whole number that is at most `n / d`.
fn floor(n: i128, d: i128) -> i128
    requires divisor { pos 0 <ℤ d }
    requires size { unsigned_abs n ≤ 2 ^ 100 }
    ensures least { (result *ℤ d) ≤ℤ n }
    ensures most { n <ℤ (result *ℤ d +ℤ d) }
{
    n.div_euclid(d)
}

/// Above 0 where, on the way up, the first edge runs more to the right than the second.
#[tactic(auto, using(scad_geom::proofs::Casts::casts), unfolding(scad_geom::specs::Line::lean))]
fn lean(e: &Edge, f: &Edge) -> i128
    requires e { IsEdgeWithin coordinate_limit e.now }
    requires f { IsEdgeWithin coordinate_limit f.now }
    ensures value { result ≡ lean e.now f.now }
    ensures size { unsigned_abs result ≤ 2 ^ 45 }
{
    minus(
        times::<22, 22>(run(e), rise(f)),
        times::<22, 22>(run(f), rise(e)),
    )
}

/// At height 0 the first edge's line lies to the right of the second's by this over the product of the rises.
#[tactic(auto, using(scad_geom::proofs::Casts::casts), unfolding(scad_geom::specs::Line::apart))]
fn apart(e: &Edge, f: &Edge) -> i128
    requires e { IsEdgeWithin coordinate_limit e.now }
    requires f { IsEdgeWithin coordinate_limit f.now }
    ensures value { result ≡ apart e.now f.now }
    ensures size { unsigned_abs result ≤ 2 ^ 67 }
{
    minus(
        times::<44, 22>(offset(e), rise(f)),
        times::<44, 22>(offset(f), rise(e)),
    )
}
