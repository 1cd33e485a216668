//! The ring round an edge by an octagon.
ghost use Rattle.std.specs.Prelude.{◌≡◌, ◌≤◌, [], ◌∷◌, unsigned_abs};
ghost use Rattle.scad_geom.specs.Limits.{point_limit};
ghost use Rattle.scad_geom.specs.Within.{IsWithin, IsEdgeWithin};
ghost use Rattle.scad_ring.specs.Limits.{distance_limit};
ghost use Rattle.scad_ring.specs.Ring.{IsRing};
ghost use Rattle.scad_ring.specs.Corners.{corners_of, corners_round, eight_sided, four_sided};

use crate::direction::{Direction, direction_between, runs_back};
use crate::octagon::{Eight, Four, slant};
use crate::outline::Ring;
use scad_geom::{Edge, Pt};

/// The outline of all points that differ from some point of the edge by a point of the octagon of `c` micrometres: its
/// corners counter-clockwise from the lowest and then leftmost. It takes no memory.
pub fn ring(e: &Edge, c: u32) -> Ring
    requires edge { IsEdgeWithin point_limit e.now }
    requires positive { 1 ≤ c }
    requires width { c ≤ distance_limit }
    ensures corners { result ≡ corners_of c e.now }
    ensures ring { IsRing c e.now result }
{
    widened(e, c)
}

fn widened(e: &Edge, c: u32) -> Ring
    requires edge { IsEdgeWithin point_limit e.now }
    requires width { c ≤ distance_limit }
    ensures { result ≡ corners_of c e.now }
{
    let t = slant(c) as i32;
    if runs_back(e) {
        round(e.b, e.a, c as i32, t)
    } else {
        round(e.a, e.b, c as i32, t)
    }
}

fn round(p: Pt, r: Pt, c: i32, t: i32) -> Ring
    requires p { IsWithin point_limit p }
    requires r { IsWithin point_limit r }
    requires c { unsigned_abs c ≤ distance_limit }
    requires t { unsigned_abs t ≤ distance_limit }
    ensures { result ≡ corners_round c t p r }
{
    let way = direction_between(p, r);
    if 0 < t {
        eight_sided(p, r, c, t, way)
    } else {
        four_sided(p, r, c, way)
    }
}

fn eight_sided(p: Pt, r: Pt, c: i32, t: i32, way: Direction) -> Ring
    requires p { IsWithin point_limit p }
    requires r { IsWithin point_limit r }
    requires c { unsigned_abs c ≤ distance_limit }
    requires t { unsigned_abs t ≤ distance_limit }
    ensures { result ≡ eight_sided c t p r way }
{
    let p = Eight::round(p, c, t);
    let r = Eight::round(r, c, t);
    match way {
        Direction::Still => flat(p, r),
        Direction::Flat => flat(p, r),
        Direction::Right => right(p, r),
        Direction::DiagonalRight => diagonal_right(p, r),
        Direction::SteepRight => steep_right(p, r),
        Direction::Upright => upright(p, r),
        Direction::SteepLeft => steep_left(p, r),
        Direction::DiagonalLeft => diagonal_left(p, r),
        Direction::Left => left(p, r),
    }
}

// Of eight corners round each end, those round the ring.
fn flat(p: Eight, r: Eight) -> Ring
    ensures { result ≡ p.low_left ∷ r.low_right ∷ r.right_low ∷ r.right_high ∷ r.high_right ∷ p.high_left
        ∷ p.left_high ∷ p.left_low ∷ [] }
{
    Ring::of(
        [
            p.low_left,
            r.low_right,
            r.right_low,
            r.right_high,
            r.high_right,
            p.high_left,
            p.left_high,
            p.left_low,
            p.left_low,
            p.left_low,
        ],
        8,
    )
}

fn right(p: Eight, r: Eight) -> Ring
    ensures { result ≡ p.low_left ∷ p.low_right ∷ r.low_right ∷ r.right_low ∷ r.right_high ∷ r.high_right
        ∷ r.high_left ∷ p.high_left ∷ p.left_high ∷ p.left_low ∷ [] }
{
    Ring::of(
        [
            p.low_left,
            p.low_right,
            r.low_right,
            r.right_low,
            r.right_high,
            r.high_right,
            r.high_left,
            p.high_left,
            p.left_high,
            p.left_low,
        ],
        10,
    )
}

fn diagonal_right(p: Eight, r: Eight) -> Ring
    ensures { result ≡ p.low_left ∷ p.low_right ∷ r.right_low ∷ r.right_high ∷ r.high_right ∷ r.high_left
        ∷ p.left_high ∷ p.left_low ∷ [] }
{
    Ring::of(
        [
            p.low_left,
            p.low_right,
            r.right_low,
            r.right_high,
            r.high_right,
            r.high_left,
            p.left_high,
            p.left_low,
            p.left_low,
            p.left_low,
        ],
        8,
    )
}

fn steep_right(p: Eight, r: Eight) -> Ring
    ensures { result ≡ p.low_left ∷ p.low_right ∷ p.right_low ∷ r.right_low ∷ r.right_high ∷ r.high_right
        ∷ r.high_left ∷ r.left_high ∷ p.left_high ∷ p.left_low ∷ [] }
{
    Ring::of(
        [
            p.low_left,
            p.low_right,
            p.right_low,
            r.right_low,
            r.right_high,
            r.high_right,
            r.high_left,
            r.left_high,
            p.left_high,
            p.left_low,
        ],
        10,
    )
}

fn upright(p: Eight, r: Eight) -> Ring
    ensures { result ≡ p.low_left ∷ p.low_right ∷ p.right_low ∷ r.right_high ∷ r.high_right ∷ r.high_left
        ∷ r.left_high ∷ p.left_low ∷ [] }
{
    Ring::of(
        [
            p.low_left,
            p.low_right,
            p.right_low,
            r.right_high,
            r.high_right,
            r.high_left,
            r.left_high,
            p.left_low,
            p.left_low,
            p.left_low,
        ],
        8,
    )
}

fn steep_left(p: Eight, r: Eight) -> Ring
    ensures { result ≡ p.low_left ∷ p.low_right ∷ p.right_low ∷ p.right_high ∷ r.right_high ∷ r.high_right
        ∷ r.high_left ∷ r.left_high ∷ r.left_low ∷ p.left_low ∷ [] }
{
    Ring::of(
        [
            p.low_left,
            p.low_right,
            p.right_low,
            p.right_high,
            r.right_high,
            r.high_right,
            r.high_left,
            r.left_high,
            r.left_low,
            p.left_low,
        ],
        10,
    )
}

fn diagonal_left(p: Eight, r: Eight) -> Ring
    ensures { result ≡ p.low_left ∷ p.low_right ∷ p.right_low ∷ p.right_high ∷ r.high_right ∷ r.high_left
        ∷ r.left_high ∷ r.left_low ∷ [] }
{
    Ring::of(
        [
            p.low_left,
            p.low_right,
            p.right_low,
            p.right_high,
            r.high_right,
            r.high_left,
            r.left_high,
            r.left_low,
            r.left_low,
            r.left_low,
        ],
        8,
    )
}

fn left(p: Eight, r: Eight) -> Ring
    ensures { result ≡ p.low_left ∷ p.low_right ∷ p.right_low ∷ p.right_high ∷ p.high_right ∷ r.high_right
        ∷ r.high_left ∷ r.left_high ∷ r.left_low ∷ r.low_left ∷ [] }
{
    Ring::of(
        [
            p.low_left,
            p.low_right,
            p.right_low,
            p.right_high,
            p.high_right,
            r.high_right,
            r.high_left,
            r.left_high,
            r.left_low,
            r.low_left,
        ],
        10,
    )
}

fn four_sided(p: Pt, r: Pt, c: i32, way: Direction) -> Ring
    requires p { IsWithin point_limit p }
    requires r { IsWithin point_limit r }
    requires c { unsigned_abs c ≤ distance_limit }
    ensures { result ≡ four_sided c p r way }
{
    let p = Four::round(p, c);
    let r = Four::round(r, c);
    match way {
        Direction::Still => Ring::four(p.low, r.right, r.high, p.left),
        Direction::Flat => Ring::six(p.low, r.low, r.right, r.high, p.high, p.left),
        Direction::Right => Ring::six(p.low, r.low, r.right, r.high, p.high, p.left),
        Direction::DiagonalRight => Ring::four(p.low, r.right, r.high, p.left),
        Direction::SteepRight => Ring::six(p.low, p.right, r.right, r.high, r.left, p.left),
        Direction::Upright => Ring::six(p.low, p.right, r.right, r.high, r.left, p.left),
        Direction::SteepLeft => Ring::six(p.low, p.right, r.right, r.high, r.left, p.left),
        Direction::DiagonalLeft => Ring::four(p.low, p.right, r.high, r.left),
        Direction::Left => Ring::six(p.low, p.right, p.high, r.high, r.left, r.low),
    }
}
