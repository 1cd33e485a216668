//! Upright rectangles round edges.
ghost use Rattle.std.specs.Prelude.{◌≡◌, ◌≤◌, ◌+ℤ◌, ◌-ℤ◌, ◌≤ℤ◌, pos, unsigned_abs};
ghost use Rattle.scad_geom.specs.Limits.{coordinate_limit};
ghost use Rattle.scad_geom.specs.Within.{IsEdgeWithin};
ghost use Rattle.gcode_text.specs.Limits.{width_limit};
ghost use Rattle.plan_verify.specs.Extent.{IsIn, Covers, Reaches, is_beyond, is_off};

use scad_geom::{Edge, Pt};

/// An upright rectangle with its border.
#[derive(Clone, Copy)]
pub struct Extent {
    pub left: i32,
    pub right: i32,
    pub bottom: i32,
    pub top: i32,
}

impl Extent {
    /// The rectangle round an edge.
    pub fn around(e: &Edge) -> Extent
        ensures { IsIn result e.now }
    {
        Extent {
            left: least(e.a.x, e.b.x),
            right: greatest(e.a.x, e.b.x),
            bottom: least(e.a.y, e.b.y),
            top: greatest(e.a.y, e.b.y),
        }
    }

    /// The rectangle round two.
    pub fn round(a: Extent, b: Extent) -> Extent
        ensures first { Covers result a }
        ensures second { Covers result b }
    {
        Extent {
            left: least(a.left, b.left),
            right: greatest(a.right, b.right),
            bottom: least(a.bottom, b.bottom),
            top: greatest(a.top, b.top),
        }
    }

    /// The rectangle round an edge, wider by `s` on each side.
    pub fn reached(e: &Edge, s: u32) -> Extent
        requires edge { IsEdgeWithin coordinate_limit e.now }
        requires few { s ≤ width_limit }
        ensures { Reaches (pos s) result e.now }
    {
        Extent {
            left: below(e.a.x, e.b.x, s),
            right: above(e.a.x, e.b.x, s),
            bottom: below(e.a.y, e.b.y, s),
            top: above(e.a.y, e.b.y, s),
        }
    }

    /// Whether it has no point in common with another.
    #[tactic(auto, unfolding(crate::specs::Extent::is_beyond))]
    pub fn is_beyond(self, other: Extent) -> bool
        ensures { result ≡ is_beyond self other }
    {
        self.right < other.left
            || (other.right < self.left || (self.top < other.bottom || other.top < self.bottom))
    }

    /// Whether no edge in it passes the height of a point to the right of it.
    #[tactic(auto, unfolding(crate::specs::Extent::is_off))]
    pub fn is_off(self, p: Pt) -> bool
        ensures { result ≡ is_off self p }
    {
        self.top <= p.y || (p.y < self.bottom || self.right <= p.x)
    }
}

fn least(a: i32, b: i32) -> i32
    ensures first { result ≤ℤ a }
    ensures second { result ≤ℤ b }
{
    if a <= b { a } else { b }
}

fn greatest(a: i32, b: i32) -> i32
    ensures first { a ≤ℤ result }
    ensures second { b ≤ℤ result }
{
    if a <= b { b } else { a }
}

// What lies at least `s` below two numbers.
fn below(a: i32, b: i32, s: u32) -> i32
    requires a { unsigned_abs a ≤ coordinate_limit }
    requires b { unsigned_abs b ≤ coordinate_limit }
    requires s { s ≤ width_limit }
    ensures first { result ≤ℤ (a -ℤ pos s) }
    ensures second { result ≤ℤ (b -ℤ pos s) }
{
    if a <= b { a - s as i32 } else { b - s as i32 }
}

// What lies at least `s` above two numbers.
fn above(a: i32, b: i32, s: u32) -> i32
    requires a { unsigned_abs a ≤ coordinate_limit }
    requires b { unsigned_abs b ≤ coordinate_limit }
    requires s { s ≤ width_limit }
    ensures first { (a +ℤ pos s) ≤ℤ result }
    ensures second { (b +ℤ pos s) ≤ℤ result }
{
    if a <= b { b + s as i32 } else { a + s as i32 }
}
