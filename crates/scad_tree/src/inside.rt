//! Which points of a layer's plane a tree contains.
ghost use Rattle.std.specs.Prelude.{◌≡◌, ◌&&◌};
ghost use Rattle.scad_geom.specs.Half.{meant};
ghost use Rattle.scad_solid.specs.Cut.{plane_of, contains};
ghost use Rattle.scad_tree.specs.Containment.{contained_at};
ghost use Rattle.scad_tree.specs.Member.{holds, some_hold, all_hold};
ghost use Rattle.scad_tree.specs.Normal.{are_some};
ghost use Rattle.scad_tree.specs.Solid.{members};
ghost use Rattle.scad_tree.specs.View.{solid_of, solids};

use crate::node::Node;
use crate::tree::Tree;
use scad_geom::{Half, Pt};
use slice_section::contains;

/// A point of the plane of a layer.
#[derive(Clone, Copy)]
struct Query {
    layer: u32,
    height: u32,
    point: Pt,
    half: Half,
}

impl Tree {
    /// Whether the tree contains the point at a layer of height `h` micrometres: a leaf does where the exact
    /// cuts of its triangles wind round it, a union where some member does, an intersection where all do, a
    /// difference where the first does and none of the rest. Nothing is rounded.
    pub fn contains_at(&self, layer: u32, h: u32, p: Pt, half: Half) -> bool
        ensures { result ≡ contained_at layer h (meant half p) (solid_of self.now) }
    {
        let at = Query {
            layer,
            height: h,
            point: p,
            half,
        };
        holds(self.as_node(), at)
    }
}

#[cycle(inside)]
#[tactic(auto, using(crate::proofs::Rows::at_operation))]
fn holds(node: &Node, at: Query) -> bool
    ensures { result ≡ contained_at at.layer at.height (meant at.half at.point) (solid_of node.now) }
{
    match node {
        Node::Empty => false,
        Node::Leaf(triangles) => contains(triangles, at.layer, at.height, at.point, at.half),
        Node::Union(members) => any_holds(members, at),
        Node::Inter(members) => has_any(members) && all_hold(members, at),
        Node::Diff(first, rest) => holds(first, at) && !any_holds(rest, at),
    }
}

fn has_any(nodes: &[Node]) -> bool
    ensures { result ≡ are_some (members (solids nodes.now)) }
{
    !nodes.is_empty()
}

#[cycle(inside)]
#[tactic(auto, using(crate::proofs::Rows::left))]
fn any_holds(nodes: &[Node], at: Query) -> bool
    ensures { result ≡ some_hold (λ ts. contains (plane_of at.layer at.height) ts (meant at.half at.point)) (members (solids nodes.now)) }
{
    'nodes: for node in nodes {
        if holds(node, at) {
            return true;
        }
    }
    false
}

#[cycle(inside)]
#[tactic(auto, using(crate::proofs::Rows::left))]
fn all_hold(nodes: &[Node], at: Query) -> bool
    ensures { result ≡ all_hold (λ ts. contains (plane_of at.layer at.height) ts (meant at.half at.point)) (members (solids nodes.now)) }
{
    'nodes: for node in nodes {
        if !holds(node, at) {
            return false;
        }
    }
    true
}
