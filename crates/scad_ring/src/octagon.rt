//! The octagon of a distance, and its corners round a point.
ghost use Rattle.std.specs.Prelude.{◌≡◌, ◌+◌, ◌≤◌, ◌^◌, ◌+ℤ◌, ◌-ℤ◌, unsigned_abs};
ghost use Rattle.scad_geom.specs.Limits.{point_limit};
ghost use Rattle.scad_geom.specs.Within.{IsWithin};
ghost use Rattle.scad_ring.specs.Limits.{distance_limit};
ghost use Rattle.scad_ring.specs.Octagon.{slant, reach};
ghost use Rattle.scad_ring.specs.Corners.{low_left, low_right, right_low, right_high, high_right, high_left, left_high, left_low, low, right, high, left, at};

use scad_geom::Pt;

/// How far the corners at `c` along one axis of the octagon of `c` lie along the other: `c * 414214 / 1000000`, rounded
/// down.
pub fn slant(c: u32) -> u32
    ensures value { result ≡ slant c }
    ensures size { result ≤ c }
{
    (c as u64 * 414_214 / 1_000_000) as u32
}

/// How far the octagon of `c` reaches along the sum of both axes: `c + slant(c)`.
pub fn reach(c: u32) -> u32
    requires { c ≤ 2 ^ 31 }
    ensures { result ≡ reach c }
{
    c + slant(c)
}

/// The corners of an octagon round a point.
#[derive(Clone, Copy)]
pub(crate) struct Eight {
    pub(crate) low_left: Pt,
    pub(crate) low_right: Pt,
    pub(crate) right_low: Pt,
    pub(crate) right_high: Pt,
    pub(crate) high_right: Pt,
    pub(crate) high_left: Pt,
    pub(crate) left_high: Pt,
    pub(crate) left_low: Pt,
}

impl Eight {
    /// At `c` along one axis and `t` along the other.
    pub(crate) fn round(p: Pt, c: i32, t: i32) -> Eight
        requires p { IsWithin point_limit p }
        requires c { unsigned_abs c ≤ distance_limit }
        requires t { unsigned_abs t ≤ distance_limit }
        ensures low_left { result.low_left ≡ low_left c t p }
        ensures low_right { result.low_right ≡ low_right c t p }
        ensures right_low { result.right_low ≡ right_low c t p }
        ensures right_high { result.right_high ≡ right_high c t p }
        ensures high_right { result.high_right ≡ high_right c t p }
        ensures high_left { result.high_left ≡ high_left c t p }
        ensures left_high { result.left_high ≡ left_high c t p }
        ensures left_low { result.left_low ≡ left_low c t p }
    {
        Eight {
            low_left: left_below(p, t, c),
            low_right: right_below(p, t, c),
            right_low: right_below(p, c, t),
            right_high: right_above(p, c, t),
            high_right: right_above(p, t, c),
            high_left: left_above(p, t, c),
            left_high: left_above(p, c, t),
            left_low: left_below(p, c, t),
        }
    }
}

/// The corners of an octagon round a point where they fall together two by two.
#[derive(Clone, Copy)]
pub(crate) struct Four {
    pub(crate) low: Pt,
    pub(crate) right: Pt,
    pub(crate) high: Pt,
    pub(crate) left: Pt,
}

impl Four {
    /// At `c` along one axis.
    pub(crate) fn round(p: Pt, c: i32) -> Four
        requires p { IsWithin point_limit p }
        requires c { unsigned_abs c ≤ distance_limit }
        ensures low { result.low ≡ low c p }
        ensures right { result.right ≡ right c p }
        ensures high { result.high ≡ high c p }
        ensures left { result.left ≡ left c p }
    {
        Four {
            low: Pt { x: p.x, y: p.y - c },
            right: Pt { x: p.x + c, y: p.y },
            high: Pt { x: p.x, y: p.y + c },
            left: Pt { x: p.x - c, y: p.y },
        }
    }
}

// A point moved along both axes.
fn left_below(p: Pt, x: i32, y: i32) -> Pt
    requires p { IsWithin point_limit p }
    requires x { unsigned_abs x ≤ distance_limit }
    requires y { unsigned_abs y ≤ distance_limit }
    ensures { result ≡ at (p.x -ℤ x) (p.y -ℤ y) }
{
    Pt {
        x: p.x - x,
        y: p.y - y,
    }
}

fn right_below(p: Pt, x: i32, y: i32) -> Pt
    requires p { IsWithin point_limit p }
    requires x { unsigned_abs x ≤ distance_limit }
    requires y { unsigned_abs y ≤ distance_limit }
    ensures { result ≡ at (p.x +ℤ x) (p.y -ℤ y) }
{
    Pt {
        x: p.x + x,
        y: p.y - y,
    }
}

fn right_above(p: Pt, x: i32, y: i32) -> Pt
    requires p { IsWithin point_limit p }
    requires x { unsigned_abs x ≤ distance_limit }
    requires y { unsigned_abs y ≤ distance_limit }
    ensures { result ≡ at (p.x +ℤ x) (p.y +ℤ y) }
{
    Pt {
        x: p.x + x,
        y: p.y + y,
    }
}

fn left_above(p: Pt, x: i32, y: i32) -> Pt
    requires p { IsWithin point_limit p }
    requires x { unsigned_abs x ≤ distance_limit }
    requires y { unsigned_abs y ≤ distance_limit }
    ensures { result ≡ at (p.x -ℤ x) (p.y +ℤ y) }
{
    Pt {
        x: p.x - x,
        y: p.y + y,
    }
}
