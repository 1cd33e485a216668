//! Membership in a tree of set operations, by that in its leaves.
ghost use Rattle.std.specs.Prelude.{◌≡◌, slice_index_or, false, ◌&&◌};
ghost use Rattle.scad_geom.specs.Shape.{shape_holds, any_holds, all_holds, has_items};

use crate::shape::Shape;

/// Whether the shape holds a point that is inside the leaves told by `inside`; a leaf past its end
/// counts as outside.
#[cycle(holds)]
pub fn holds(shape: &Shape, inside: &[bool]) -> bool
    ensures { result ≡ shape_holds (λ leaf. slice_index_or inside.now leaf false) shape.now }
{
    match shape {
        Shape::Empty => false,
        Shape::Leaf(leaf) => is_inside(*leaf, inside),
        Shape::Union(members) => any_holds(members, inside),
        Shape::Inter(members) => has_any(members) && all_hold(members, inside),
        Shape::Diff(first, rest) => holds(first, inside) && !any_holds(rest, inside),
    }
}

fn is_inside(leaf: u32, inside: &[bool]) -> bool
    ensures { result ≡ slice_index_or inside.now leaf false }
{
    match inside.get(leaf as usize) {
        Some(held) => *held,
        None => false,
    }
}

fn has_any(members: &[Shape]) -> bool
    ensures { result ≡ has_items members.now }
{
    !members.is_empty()
}

#[cycle(holds)]
fn any_holds(members: &[Shape], inside: &[bool]) -> bool
    ensures { result ≡ any_holds (λ leaf. slice_index_or inside.now leaf false) members.now }
{
    'members: for member in members {
        if holds(member, inside) {
            return true;
        }
    }
    false
}

#[cycle(holds)]
fn all_hold(members: &[Shape], inside: &[bool]) -> bool
    ensures { result ≡ all_holds (λ leaf. slice_index_or inside.now leaf false) members.now }
{
    'members: for member in members {
        if !holds(member, inside) {
            return false;
        }
    }
    true
}
