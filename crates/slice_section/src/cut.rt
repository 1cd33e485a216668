//! The cut of a triangle.
ghost use Rattle.std.specs.Prelude.{◌≡◌, ◌≤◌, ◌*ℤ◌, ◌-ℤ◌, pos, unsigned_abs, IsTrue, IfSome, find};
ghost use Rattle.std.specs.Option.{option_map};
ghost use Rattle.scad_geom.specs.Rounding.{half_down};
ghost use Rattle.scad_geom.specs.Limits.{point_limit};
ghost use Rattle.scad_solid.specs.Range.{is_triangle_in_range};
ghost use Rattle.scad_solid.specs.Surface.{sides_of};
ghost use Rattle.scad_solid.specs.Cut.{falls, rises, cut_of, weighted, point_between};
ghost use Rattle.winding_laws.specs.Edges.{rounded, rounded_edge};
ghost use Rattle.slice_section.specs.Through.{IsBetween, IsThrough};

use crate::exact::{apart, weighted};
use crate::plane::{falls, rises};
use scad_geom::{Edge, Pt, Pt3, round_half_down};
use scad_solid::{Side, Triangle};

/// The triangle's cut at a plane, with both ends rounded, where the plane divides it.
pub(crate) fn edge_of(triangle: &Triangle, plane: i128) -> Option<Edge>
    requires { IsTrue (is_triangle_in_range triangle.now) }
    ensures { result ≡ option_map rounded_edge (cut_of plane triangle.now) }
{
    let falling = falling(triangle, plane)?;
    let rising = rising(triangle, plane)?;
    Some(Edge {
        a: point_between(falling.to, falling.from, plane),
        b: point_between(rising.from, rising.to, plane),
    })
}

/// The first side that falls through the plane.
pub(crate) fn falling(triangle: &Triangle, plane: i128) -> Option<Side>
    requires { IsTrue (is_triangle_in_range triangle.now) }
    ensures first { result ≡ find (falls plane) (sides_of triangle.now) }
    ensures through { IfSome result (λ s. IsThrough plane s.to s.from) }
{
    let sides = triangle.sides();
    first_falling(&sides, plane)
}

/// The first side that rises through the plane.
pub(crate) fn rising(triangle: &Triangle, plane: i128) -> Option<Side>
    requires { IsTrue (is_triangle_in_range triangle.now) }
    ensures first { result ≡ find (rises plane) (sides_of triangle.now) }
    ensures through { IfSome result (λ s. IsThrough plane s.from s.to) }
{
    let sides = triangle.sides();
    first_rising(&sides, plane)
}

fn first_falling(sides: &[Side], plane: i128) -> Option<Side>
    ensures { result ≡ find (falls plane) sides.now }
{
    'sides: for side in sides {
        if falls(side, plane) {
            return Some(*side);
        }
    }
    None
}

fn first_rising(sides: &[Side], plane: i128) -> Option<Side>
    ensures { result ≡ find (rises plane) sides.now }
{
    'sides: for side in sides {
        if rises(side, plane) {
            return Some(*side);
        }
    }
    None
}

// Where the side between a point below the plane and one above meets it, rounded.
fn point_between(lower: Pt3, upper: Pt3, plane: i128) -> Pt
    requires { IsThrough plane lower upper }
    ensures { result ≡ rounded (point_between lower upper plane) }
{
    Pt {
        x: coordinate_at(lower.x, upper.x, lower.z, upper.z, plane),
        y: coordinate_at(lower.y, upper.y, lower.z, upper.z, plane),
    }
}

// One coordinate where the side from `lower` at the height `low` to `upper` at the height `high` meets the
// plane between them, rounded.
fn coordinate_at(lower: i32, upper: i32, low: i32, high: i32, plane: i128) -> i32
    requires lower { unsigned_abs lower ≤ point_limit }
    requires upper { unsigned_abs upper ≤ point_limit }
    requires heights { IsBetween plane low high }
    ensures { result ≡ half_down (weighted lower upper low high plane) (pos 2 *ℤ high -ℤ pos 2 *ℤ low) }
{
    round_half_down(weighted(lower, upper, low, high, plane), apart(low, high))
}
