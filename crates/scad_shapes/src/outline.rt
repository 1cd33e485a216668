//! The outlines of the primitives.
ghost use Rattle.std.specs.Prelude.{◌≡◌, ◌<◌, ◌≤◌, ◌*◌, ◌*ℤ◌, unsigned_abs, length, IfOk};
ghost use Rattle.scad_cos.specs.Circle.{fragment_limit};
ghost use Rattle.scad_num.specs.Number.{one, most};
ghost use Rattle.scad_num.specs.Rounding.{half_away};
ghost use Rattle.scad_shapes.specs.Outline.{rectangle, part_of, vertex, circle};

use crate::extent::extent;
use scad_cos::{cos, sin, vertex_angle};
use scad_num::{Num, ONE_PART, half_away, times};
use std::alloc::{AllocError, Global};

/// The rectangle of a cube.
pub fn rectangle(x: Num, y: Num, center: bool) -> [(Num, Num); 4]
    ensures { result ≡ rectangle x y center }
{
    let (left, right) = extent(x, center);
    let (low, high) = extent(y, center);
    [(left, low), (right, low), (right, high), (left, high)]
}

/// The vertices of a circle.
pub fn circle(alloc: Global, r: Num, n: u32) -> Result<Vec<(Num, Num)>, AllocError>
    requires { n ≤ fragment_limit }
    ensures vertices { IfOk result (λ v. v.items ≡ circle r n) }
    ensures count { IfOk result (λ v. length v.items ≡ n) }
{
    let mut outline = Vec::new(alloc);
    for i in 0..n {
        outline.push(vertex(r, n, i))?;
    }
    Ok(outline)
}

fn vertex(r: Num, n: u32, i: u32) -> (Num, Num)
    requires below { i < n }
    requires few { n ≤ fragment_limit }
    ensures { result ≡ vertex r n i }
{
    let angle = vertex_angle(i64::from(i), i64::from(n));
    (part_of(r, cos(angle)), part_of(r, sin(angle)))
}

/// A length times a cosine or a sine.
pub fn part_of(r: Num, c: i64) -> Num
    requires { unsigned_abs c ≤ one }
    ensures { result ≡ part_of r c }
{
    number(rounded(product(r, c)))
}

fn product(r: Num, c: i64) -> i128
    requires { unsigned_abs c ≤ one }
    ensures value { result ≡ r *ℤ c }
    ensures small { unsigned_abs result ≤ most * one }
{
    times(r.millionths(), c)
}

#[tactic(auto, using(crate::proofs::Roundings::part_is_small))]
fn rounded(n: i128) -> i128
    requires { unsigned_abs n ≤ most * one }
    ensures value { result ≡ half_away n one }
    ensures small { unsigned_abs result ≤ most }
{
    half_away(n, ONE_PART)
}

fn number(millionths: i128) -> Num
    requires { unsigned_abs millionths ≤ most }
    ensures { result ≡ millionths }
{
    Num::within(millionths as i64)
}
