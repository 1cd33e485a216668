//! Circles: how many sides stand for one, and the angles of its vertices (OpenSCAD manual, `$fa`, `$fs` and `$fn`).
ghost use Rattle.std.specs.Prelude.{◌≡◌, ◌<◌, ◌≤◌, pos, ◌<ℤ◌, ◌≤ℤ◌, unsigned_abs};
ghost use Rattle.scad_num.specs.Number.{most};
ghost use Rattle.scad_cos.specs.Circle.{fragment_limit, least_step, fragments_by_steps, fragments_of, vertex_angle_of};

use scad_num::{Num, ONE, ONE_PART, half_up};

/// The millionths of 1, in 128 bits.
const WIDE_ONE: u128 = ONE_PART as u128;

/// A least angle or a least side as a divisor.
#[tactic(auto, unfolding(crate::specs::Circle::least_step))]
fn least_step(step: Num) -> u128
    ensures value { result ≡ least_step step }
    ensures positive { 10000 ≤ result }
    ensures small { result ≤ most }
{
    step.millionths().max(10_000) as u128
}

/// The fragments where neither a small radius nor `$fn` decides.
#[tactic(auto, unfolding(crate::specs::Circle::fragments_by_steps))]
fn fragments_by_steps(r: u128, angle: u128, size: u128) -> u128
    requires radius { r ≤ most }
    requires angle_step { 10000 ≤ angle }
    requires angle_small { angle ≤ most }
    requires size_step { 10000 ≤ size }
    requires size_small { size ≤ most }
    ensures value { result ≡ fragments_by_steps r angle size }
    ensures at_least_five { 5 ≤ result }
    ensures small { result ≤ 1000000000000 }
{
    let by_angle = half_up(360 * WIDE_ONE * WIDE_ONE, angle);
    let around = half_up(6_283_185 * r, WIDE_ONE);
    let by_size = half_up(around * WIDE_ONE, size);
    by_angle.min(by_size).max(5 * WIDE_ONE).div_ceil(WIDE_ONE)
}

/// How many sides stand for a circle of radius `r` under `$fn`, `$fa` and `$fs`.
#[tactic(auto, unfolding(crate::specs::Circle::fragments_of))]
pub fn fragments(r: Num, fn_: Num, fa: Num, fs: Num) -> i64
    ensures value { result ≡ pos (fragments_of r fn_ fa fs) }
    ensures at_least_three { pos 3 ≤ℤ result }
    ensures small { result ≤ℤ pos 1000000000000 }
{
    if r.millionths() < 1_000 {
        return 3;
    }
    if fn_.millionths() > 0 {
        return (fn_.millionths() / ONE).max(3);
    }
    fragments_by_steps(r.millionths() as u128, least_step(fa), least_step(fs)) as i64
}

/// The angle of vertex `i` of `n`, rounded to the nearest thousandth of a degree.
#[tactic(auto, unfolding(crate::specs::Circle::vertex_angle_of))]
fn rounded_share(i: u64, n: u64) -> u64
    requires below { i < n }
    requires few { n ≤ fragment_limit }
    ensures value { result ≡ vertex_angle_of i n }
    ensures within { result ≤ 360000 }
{
    (360_000 * i + n / 2) / n
}

/// The angle of vertex `i` of `n`, in thousandths of a degree.
pub fn vertex_angle(i: i64, n: i64) -> i64
    requires not_negative { pos 0 ≤ℤ i }
    requires below { i <ℤ n }
    requires few { n ≤ℤ pos fragment_limit }
    ensures value { result ≡ pos (vertex_angle_of (unsigned_abs i) (unsigned_abs n)) }
    ensures within { unsigned_abs result ≤ 360000 }
{
    rounded_share(i as u64, n as u64) as i64
}
