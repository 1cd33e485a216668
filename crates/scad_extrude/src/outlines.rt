//! The outlines of flat shapes.
ghost use Rattle.std.specs.Prelude.{◌≡◌, ◌≤◌, IfOk};
ghost use Rattle.scad_cos.specs.Circle.{fragment_limit};
ghost use Rattle.scad_shapes.specs.Outline.{rectangle, circle};

use scad_num::Num;
use scad_shapes::parts::{circle, rectangle};
use std::alloc::{AllocError, Global};

/// The `n` vertices of a circle round the origin, counter-clockwise.
pub fn circle_ring(alloc: Global, r: Num, n: u32) -> Result<Vec<(Num, Num)>, AllocError>
    requires { n ≤ fragment_limit }
    ensures { IfOk result (λ v. v.items ≡ circle r n) }
{
    circle(alloc, r, n)
}

/// The corners of a rectangle of these sizes, counter-clockwise: from the origin to the upper right, or
/// round the origin.
pub fn square_ring(
    alloc: Global,
    x: Num,
    y: Num,
    center: bool,
) -> Result<Vec<(Num, Num)>, AllocError>
    ensures { IfOk result (λ v. v.items ≡ rectangle x y center) }
{
    Vec::from_slice(alloc, &rectangle(x, y, center))
}
