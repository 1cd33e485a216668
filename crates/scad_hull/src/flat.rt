//! Hulls in the plane.
ghost use Rattle.std.specs.Prelude.{◌≡◌};
ghost use Rattle.std.specs.List.{list_all};
ghost use Rattle.std.specs.List.Sorted.{IsStrictlySortedBy};
ghost use Rattle.scad_geom.specs.Sign.{is_zero};
ghost use Rattle.scad_base.specs.Memory.{UnlessMemory};
ghost use Rattle.scad_hull.specs.Flat.{flat_cmp, flat_left, are_on_line, ring_hull_of, is_memory};

use crate::chain::ring_round;
use crate::fault::HullFault;
use crate::outline::Ring2;
use crate::plane::{Pairs, left};
use crate::spot::in_order;
use scad_num::Num;
use std::alloc::Global;

/// The most distinct points of a hull.
pub(crate) const POINT_COUNT_LIMIT: usize = 20_000;

/// The ring round points (x, y), counter-clockwise from the lowest and then leftmost of them; None
/// exactly where they lie on one line. More than 20,000 distinct points are refused, with their number.
pub fn ring_hull(alloc: Global, points: &[(Num, Num)]) -> Result<Option<Ring2>, HullFault>
    ensures { UnlessMemory is_memory result (result ≡ ring_hull_of points.now) }
{
    let Ok(points) = in_order(alloc, points) else {
        return Err(HullFault::Memory);
    };
    if points.len() > POINT_COUNT_LIMIT {
        return Err(HullFault::Points(points.len() as u64));
    }
    if are_on_line(points.as_slice()) {
        return Ok(None);
    }
    match ring_round(alloc, &Pairs, points.as_slice()) {
        Ok(corners) => Ok(Some(Ring2::from_vec(corners))),
        Err(_) => Err(HullFault::Memory),
    }
}

fn are_on_line(points: &[(Num, Num)]) -> bool
    requires { IsStrictlySortedBy flat_cmp points.now }
    ensures { result ≡ are_on_line points.now }
{
    points.len() < 2 || all_on(points[0], points[1], points)
}

// Whether all points lie on the line through two.
fn all_on(a: (Num, Num), b: (Num, Num), points: &[(Num, Num)]) -> bool
    ensures { result ≡ list_all (λ p. is_zero (flat_left a b p)) points.now }
{
    points.iter().all(|p| is_on_line(&a, &b, p))
}

fn is_on_line(a: &(Num, Num), b: &(Num, Num), p: &(Num, Num)) -> bool
    ensures { result ≡ is_zero (flat_left a.now b.now p.now) }
{
    left(a, b, p) == 0
}
