//! Profiles that are turned round the z axis.

ghost use Rattle.std.specs.Prelude.{◌≡◌, ◌≤◌, true, unsigned_abs, max, IfOk, length};
ghost use Rattle.scad_num.specs.Number.{most};
ghost use Rattle.scad_modules.specs.Primitive.{are_fragments};
ghost use Rattle.scad_modules.specs.Profile.{profile_point, profile_of, is_left, is_right, crosses_axis, farthest};
ghost use Rattle.scad_modules.specs.Profile.{turns_of};
ghost use Rattle.scad_modules.specs.View.{Reads};

use crate::fault::ArgumentFault;
use crate::fineness::Resolution;
use crate::reading::Pair;
use crate::shape::few_fragments;
use scad_matrix::{Matrix, MatrixFault};
use scad_num::Num;
use std::alloc::Global;

fn profile_point(m: &Matrix, p: Pair) -> Result<Pair, ArgumentFault>
    ensures { result ≡ profile_point m.now p }
{
    match m.profile(p.0, p.1) {
        Ok(placed) => Ok(placed),
        Err(MatrixFault::Range) => Err(ArgumentFault::NumberRange),
    }
}

/// The points of an outline, placed by the matrix of a profile, in millionths. NumberRange where a number
/// passes 10^15 of them in size.
pub fn profile_of(
    alloc: Global,
    m: &Matrix,
    ring: &[(Num, Num)],
) -> Result<Vec<(Num, Num)>, ArgumentFault>
    ensures reads { Reads (λ v. v.items) (profile_of m.now ring.now) result }
    ensures count { IfOk result (λ v. length v.items ≡ length ring.now) }
{
    let mut profile = Vec::new(alloc);
    'points: for point in ring {
        let placed = profile_point(m, *point)?;
        profile.push(placed)?;
    }
    Ok(profile)
}

fn is_left(p: Pair) -> bool
    ensures { result ≡ is_left p }
{
    p.0.millionths() < 0
}

fn is_right(p: Pair) -> bool
    ensures { result ≡ is_right p }
{
    p.0.millionths() > 0
}

/// Whether a profile has points on both sides of the axis.
#[tactic(auto, using(crate::proofs::Profiles::sides))]
pub fn crosses_axis(ring: &[(Num, Num)]) -> bool
    ensures { result ≡ crosses_axis ring.now }
{
    let mut left = false;
    let mut right = false;
    'points: for point in ring {
        left |= is_left(*point);
        right |= is_right(*point);
    }
    left && right
}

/// How far from the axis the farthest point is.
#[tactic(auto, using(crate::proofs::Profiles::distances))]
fn farthest(ring: &[(Num, Num)]) -> u64
    ensures value { result ≡ farthest ring.now }
    ensures small { result ≤ most }
{
    let mut far = 0;
    'points: for point in ring {
        far = farther(far, point.0);
    }
    far
}

fn farther(far: u64, x: Num) -> u64
    requires { far ≤ most }
    ensures value { result ≡ max far (unsigned_abs x) }
    ensures small { result ≤ most }
{
    far.max(x.millionths().unsigned_abs())
}

/// In how many turns a profile goes round the axis.
pub fn turns_of(r: Resolution, ring: &[(Num, Num)]) -> u32
    ensures value { result ≡ turns_of r ring.now }
    ensures few { are_fragments result ≡ true }
{
    few_fragments(Num::within(farthest(ring) as i64), r.fn_, r.fa, r.fs)
}
