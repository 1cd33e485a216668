//! The direction of an edge, beside those of an octagon's sides.
ghost use Rattle.std.specs.Prelude.{◌≡◌, ◌≤◌, ◌-ℤ◌, unsigned_abs, int_lt, if◌then◌else◌};
ghost use Rattle.scad_geom.specs.Limits.{point_limit};
ghost use Rattle.scad_geom.specs.Within.{IsWithin};
ghost use Rattle.scad_ring.specs.Corners.{direction_of, runs_back};
ghost use Rattle.scad_ring.specs.declared.direction.Direction.TheVariants.{Right, DiagonalRight, SteepRight, SteepLeft, DiagonalLeft, Left};

use scad_geom::{Edge, Pt};

/// The direction of an edge that doesn't run backwards, counter-clockwise from the right.
#[derive(Clone, Copy)]
pub(crate) enum Direction {
    /// None: the edge is a point.
    Still,
    /// To the right.
    Flat,
    /// More to the right than upwards.
    Right,
    /// As much to the right as upwards.
    DiagonalRight,
    /// More upwards than to the right.
    SteepRight,
    /// Upwards.
    Upright,
    /// More upwards than to the left.
    SteepLeft,
    /// As much to the left as upwards.
    DiagonalLeft,
    /// More to the left than upwards.
    Left,
}

/// Whether an edge ends before its start, by height and then from the left.
pub(crate) fn runs_back(e: &Edge) -> bool
    ensures { result ≡ runs_back e.now }
{
    e.b.y < e.a.y || (e.b.y <= e.a.y && e.b.x < e.a.x)
}

/// The direction of the way from `p` to `r`.
pub(crate) fn direction_between(p: Pt, r: Pt) -> Direction
    requires p { IsWithin point_limit p }
    requires r { IsWithin point_limit r }
    ensures { result ≡ direction_of (r.x -ℤ p.x) (r.y -ℤ p.y) }
{
    by_steps(r.x - p.x, r.y - p.y)
}

#[tactic(auto, using(scad_geom::proofs::Casts::casts), unfolding(crate::specs::Corners::direction_of))]
fn by_steps(x: i32, y: i32) -> Direction
    requires x { unsigned_abs x ≤ 2000000 }
    requires y { unsigned_abs y ≤ 2000000 }
    ensures { result ≡ direction_of x y }
{
    if 0 < y {
        if 0 < x {
            to_the_right(x, y)
        } else if x < 0 {
            to_the_left(-x, y)
        } else {
            Direction::Upright
        }
    } else if 0 < x {
        Direction::Flat
    } else {
        Direction::Still
    }
}

fn to_the_right(x: i32, y: i32) -> Direction
    ensures { result ≡ (if int_lt y x then Right else (if int_lt x y then SteepRight else DiagonalRight)) }
{
    if y < x {
        Direction::Right
    } else if x < y {
        Direction::SteepRight
    } else {
        Direction::DiagonalRight
    }
}

fn to_the_left(x: i32, y: i32) -> Direction
    ensures { result ≡ (if int_lt y x then Left else (if int_lt x y then SteepLeft else DiagonalLeft)) }
{
    if y < x {
        Direction::Left
    } else if x < y {
        Direction::SteepLeft
    } else {
        Direction::DiagonalLeft
    }
}
