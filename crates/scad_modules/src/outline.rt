//! Flat shapes with their sizes.

ghost use Rattle.std.specs.Prelude.{◌≡◌, ◌≤◌, ◌∷◌, [], IfOk, Ok, true, length};
ghost use Rattle.std.specs.List.{list_all};
ghost use Rattle.scad_modules.specs.Outline.{ring_of, is_outline, points_in};
ghost use Rattle.scad_modules.specs.View.{outline, outlines, Reads};

use crate::fault::ArgumentFault;
use scad_extrude::{circle_ring, square_ring};
use scad_num::Num;
use std::alloc::{AllocError, Global};

/// The outline of a flat shape, before it is placed.
#[derive(Drop)]
pub enum Outline {
    /// The sizes along x and y, centred or not.
    Rectangle(Num, Num, bool),
    /// The radius and the number of fragments.
    Circle(Num, u32),
    /// The points in order.
    Path(Vec<(Num, Num)>),
}

/// An outline without others.
pub(crate) fn alone(alloc: Global, shape: Outline) -> Result<Vec<Outline>, ArgumentFault>
    requires { is_outline (outline shape) ≡ true }
    ensures reads { Reads (λ v. outlines v.items) (Ok (outline shape ∷ [])) result }
    ensures outlines { IfOk result (λ v. list_all is_outline (outlines v.items) ≡ true) }
{
    let mut outlines = Vec::new(alloc);
    outlines.push(shape)?;
    Ok(outlines)
}

/// How many points the outline has.
pub fn points_in(shape: &Outline) -> usize
    ensures { result ≡ points_in (outline shape.now) }
{
    match shape {
        Outline::Rectangle(_, _, _) => 4,
        Outline::Circle(_, n) => *n as usize,
        Outline::Path(points) => points.len(),
    }
}

/// The points of the outline in order.
#[tactic(auto, using(crate::proofs::Outlines::lengths))]
pub fn ring_of(alloc: Global, shape: &Outline) -> Result<Vec<(Num, Num)>, AllocError>
    requires { is_outline (outline shape.now) ≡ true }
    ensures ring { IfOk result (λ v. v.items ≡ ring_of (outline shape.now)) }
    ensures count { IfOk result (λ v. length v.items ≡ points_in (outline shape.now)) }
    ensures some { IfOk result (λ v. 3 ≤ length v.items) }
{
    match shape {
        Outline::Rectangle(x, y, center) => square_ring(alloc, *x, *y, *center),
        Outline::Circle(r, n) => circle_ring(alloc, *r, *n),
        Outline::Path(points) => Vec::from_slice(alloc, points),
    }
}
