//! Cosines and sines of thousandths of a degree, straight between the entries of a table of whole degrees.
ghost use Rattle.std.specs.Prelude.{◌≡◌, ◌+◌, ◌-◌, ◌*◌, ◌/◌, ◌^◌, ◌<◌, ◌≤◌, slice_index, unsigned_abs};
ghost use Rattle.scad_cos.specs.Cosine.{cosines, first_quarter, half_turn, full_turn, cosine, sine};

use crate::table::COSINES;

/// The table's entry for a whole degree.
#[tactic(auto, using(crate::proofs::Entries::entries), unfolding(crate::specs::Cosine::cosines))]
fn entry(degree: usize) -> u64
    requires { degree ≤ 90 }
    ensures { result ≡ slice_index cosines degree }
{
    COSINES[degree]
}

/// The point of a straight line from `a` to `b`, so many thousandths behind `a`.
fn between(a: u64, b: u64, part: u64) -> u64
    requires a_small { a ≤ 1000000 }
    requires b_small { b ≤ 1000000 }
    requires part_small { part < 1000 }
    ensures value { result ≡ (a * (1000 - part) + b * part + 500) / 1000 }
    ensures small { result ≤ 1000000 }
{
    let weighed = a * (1000 - part) + b * part;
    (weighed + 500) / 1000
}

/// The cosine of an angle from 0 to 90 degrees.
#[tactic(auto, using(crate::proofs::Entries::entries), unfolding(crate::specs::Cosine::first_quarter))]
fn first_quarter(angle: u64) -> u64
    requires { angle ≤ 90000 }
    ensures value { result ≡ first_quarter angle }
    ensures small { result ≤ 1000000 }
{
    let degree = (angle / 1000) as usize;
    let part = angle % 1000;
    if part == 0 {
        return entry(degree);
    }
    between(entry(degree), entry(degree + 1), part)
}

/// The cosine of an angle from 0 to 180 degrees.
#[tactic(auto, unfolding(crate::specs::Cosine::half_turn))]
fn half_turn(angle: u64) -> i64
    requires { angle ≤ 180000 }
    ensures value { result ≡ half_turn angle }
    ensures small { unsigned_abs result ≤ 1000000 }
{
    if angle <= 90_000 {
        first_quarter(angle) as i64
    } else {
        -(first_quarter(180_000 - angle) as i64)
    }
}

/// The cosine in millionths of an angle in thousandths of a degree.
#[tactic(auto, unfolding(crate::specs::Cosine::cosine, crate::specs::Cosine::full_turn))]
pub fn cos(angle: i64) -> i64
    requires { unsigned_abs angle ≤ 2 ^ 62 }
    ensures value { result ≡ cosine angle }
    ensures small { unsigned_abs result ≤ 1000000 }
{
    let turned = angle.rem_euclid(360_000) as u64;
    if turned <= 180_000 {
        half_turn(turned)
    } else {
        half_turn(360_000 - turned)
    }
}

/// The sine in millionths of an angle in thousandths of a degree.
#[tactic(auto, unfolding(crate::specs::Cosine::sine))]
pub fn sin(angle: i64) -> i64
    requires { unsigned_abs angle ≤ 2 ^ 61 }
    ensures value { result ≡ sine angle }
    ensures small { unsigned_abs result ≤ 1000000 }
{
    cos(angle - 90_000)
}
