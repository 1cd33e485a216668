//! Hulls of points of space.
ghost use Rattle.std.specs.Prelude.{◌≡◌};
ghost use Rattle.std.specs.List.{list_all};
ghost use Rattle.scad_geom.specs.PointRange.{is_in_range};

use crate::cases::expect;
use crate::inside::{ends_between, is_without_second};
use sample_dice::Dice;
use scad_geom::{Pt3, is_in_range};
use scad_hull::{HullFault, hull};
use scad_solid::Triangles;
use std::alloc::{AllocError, Global};

fn at(x: i32, y: i32, z: i32) -> Pt3 {
    Pt3 { x, y, z }
}

fn are_in_range(points: &[Pt3]) -> bool
    ensures { result ≡ list_all is_in_range points.now }
{
    points.iter().all(|p| is_in_range(*p))
}

/// The hull of points in range.
fn hull_of(alloc: Global, points: &[Pt3]) -> Result<Option<Triangles>, HullFault> {
    if !are_in_range(points) {
        return Err(HullFault::Memory);
    }
    hull(alloc, points)
}

/// Points whose coordinates are among the first few numbers.
fn roll_points(alloc: Global, dice: &mut Dice) -> Result<Vec<Pt3>, AllocError> {
    let count = dice.roll(14);
    let mut points = Vec::new(alloc);
    for _ in 0..count {
        let x = dice.roll(4) as i32;
        let y = dice.roll(4) as i32;
        let z = dice.roll(4) as i32;
        points.push(Pt3 { x, y, z })?;
    }
    Ok(points)
}

fn with_corner(sum: u64, p: Pt3) -> u64 {
    let place = p.x.unsigned_abs() as u64 * 49
        + p.y.unsigned_abs() as u64 * 7
        + p.z.unsigned_abs() as u64
        + 1;
    sum.wrapping_mul(31).wrapping_add(place)
}

/// The sum with the corners of a solid, each by its place.
fn with_solid(sum: u64, solid: &Triangles) -> u64 {
    let mut sum = sum;
    for i in 0..solid.count() {
        let [a, b, c] = solid.get(i);
        sum = with_corner(sum, a);
        sum = with_corner(sum, b);
        sum = with_corner(sum, c);
    }
    sum
}

#[test]
fn rolled_points_have_the_hulls_of_the_definition(rt: HostRuntime) {
    let mut dice = Dice::of_seed(19);
    let mut sum: u64 = 0;
    for _ in 0..300 {
        let points = roll_points(rt.alloc(), &mut dice).expect(&rt, "points");
        match hull_of(rt.alloc(), points.as_slice()) {
            Ok(Some(solid)) => sum = with_solid(sum, &solid),
            Ok(None) => sum = sum.wrapping_mul(37).wrapping_add(5),
            Err(_) => sum = 0,
        }
    }
    expect(&rt, sum == SUM, "the sum of all hulls");
}

/// What another program makes of the same sets, 96 of which lie in one plane.
const SUM: u64 = 2789694500840320306;

/// A pyramid of the greatest size, with a point just below its top and one just above the middle of its base.
#[test]
fn corners_at_the_limit_are_exact(rt: HostRuntime) {
    let most = 1_000_000;
    let points = [
        at(-most, -most, -most),
        at(most, -most, -most),
        at(-most, most, -most),
        at(most, most, -most),
        at(0, 0, most),
        at(0, 0, most - 1),
        at(0, 0, 1 - most),
    ];
    let solid = hull_of(rt.alloc(), &points)
        .expect(&rt, "a hull")
        .expect(&rt, "a solid");
    expect(&rt, solid.count() == 6, "the triangles of a pyramid");
    expect(
        &rt,
        with_solid(0, &solid) == PYRAMID_SUM,
        "the faces of the pyramid",
    );
    expect(
        &rt,
        ends_between(solid, 499_949, 499_950),
        "the pyramid's layer ends 499,949.75 from its middle",
    );
    let is = is_without_second(rt.alloc()).expect(&rt, "memory");
    expect(&rt, is, "a leaf without another");
}

/// What another program makes of the five faces of the pyramid.
const PYRAMID_SUM: u64 = 1107245066618153248;
