//! Points that lie in solids and in shapes, and such that don't.
ghost use Rattle.std.specs.Prelude.{◌<◌, length};

use scad_geom::{Half, Pt, Shape, holds};
use scad_solid::Triangles;
use scad_tree::Tree;
use std::alloc::{AllocError, Global};

/// Whether the tree of a solid has the first of two points of the x axis and not the second, 100.5 micrometres up.
pub(crate) fn ends_between(solid: Triangles, inner: i32, outer: i32) -> bool
    requires { 0 < length solid }
{
    let tree = Tree::leaf(solid);
    tree.contains_at(0, 200, Pt { x: inner, y: 0 }, Half::Whole)
        && !tree.contains_at(0, 200, Pt { x: outer, y: 0 }, Half::Whole)
}

/// Whether a leaf without another holds the points of the first that the second hasn't.
pub(crate) fn is_without_second(alloc: Global) -> Result<bool, AllocError> {
    let mut rest = Vec::new(alloc);
    rest.push(Shape::Leaf(1))?;
    let shape = Shape::Diff(Box::new(alloc, Shape::Leaf(0))?, rest);
    Ok(
        holds(&shape, &[true, false])
            && !holds(&shape, &[true, true])
            && !holds(&shape, &[false, false]),
    )
}
