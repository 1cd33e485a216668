//! Rings round points of the plane.

use crate::cases::expect;
use sample_dice::Dice;
use scad_hull::{Ring2, ring_hull};
use scad_num::Num;
use std::alloc::{AllocError, Global};

fn pair(x: i32, y: i32) -> (Num, Num) {
    (Num::within(i64::from(x)), Num::within(i64::from(y)))
}

/// Points whose coordinates are among the first few numbers.
fn roll_pairs(alloc: Global, dice: &mut Dice) -> Result<Vec<(Num, Num)>, AllocError> {
    let count = dice.roll(12);
    let mut points = Vec::new(alloc);
    for _ in 0..count {
        let p = dice.roll_point(0, 6);
        points.push(pair(p.x, p.y))?;
    }
    Ok(points)
}

/// The sum with the corners of a ring, each by its place.
fn with_ring(sum: u64, ring: &Ring2) -> u64 {
    let mut sum = sum;
    for (x, y) in ring.as_slice() {
        sum = sum.wrapping_mul(31).wrapping_add(
            x.millionths().unsigned_abs() * 7 + y.millionths().unsigned_abs() + 1,
        );
    }
    sum
}

#[test]
fn rolled_points_have_the_rings_of_the_definition(rt: HostRuntime) {
    let mut dice = Dice::of_seed(18);
    let mut sum: u64 = 0;
    for _ in 0..300 {
        let points = roll_pairs(rt.alloc(), &mut dice).expect(&rt, "points");
        match ring_hull(rt.alloc(), points.as_slice()) {
            Ok(Some(ring)) => sum = with_ring(sum, &ring),
            Ok(None) => sum = sum.wrapping_mul(37).wrapping_add(5),
            Err(_) => sum = 0,
        }
    }
    expect(&rt, sum == SUM, "the sum of all rings");
}

/// What another program makes of the same sets, 82 of which have no ring.
const SUM: u64 = 7835197369183553424;

#[test]
fn corners_at_the_limit_are_exact(rt: HostRuntime) {
    let most = 1_000_000_000_000_000;
    let low = Num::within(0 - most);
    let high = Num::within(most);
    let inner = Num::within(most - 1);
    let points = [
        (high, high),
        (inner, inner),
        (low, low),
        (inner, high),
        (low, inner),
    ];
    let ring = ring_hull(rt.alloc(), &points)
        .expect(&rt, "a hull")
        .expect(&rt, "a ring");
    let wanted = [(low, low), (high, high), (inner, high), (low, inner)];
    expect(
        &rt,
        ring.as_slice() == wanted.as_slice(),
        "the outer points",
    );
    let half = Num::within(-500);
    expect(
        &rt,
        inner.to_micrometre() == 1_000_000_000_000 && half.to_micrometre() == -1,
        "micrometres, halves away from zero",
    );
}
