//! The shape of a wall.
ghost use Rattle.std.specs.Prelude.{◌+◌, ◌<◌, ◌^◌, IfOk};
ghost use Rattle.plan_walls.specs.Walls.{IsFirstWithout};

use scad_geom::Shape;
use std::alloc::{AllocError, Global};

/// The shape that holds what leaf 0 holds and none of the `count` leaves after it.
pub(crate) fn first_without(alloc: Global, count: u32) -> Result<Shape, AllocError>
    requires { count + 1 < 2 ^ 32 }
    ensures { IfOk result (IsFirstWithout count) }
{
    let mut rest = Vec::new(alloc);
    'leaves: for leaf in 0..count {
        rest.push(Shape::Leaf(leaf + 1))?;
    }
    Ok(Shape::Diff(Box::new(alloc, Shape::Leaf(0))?, rest))
}
