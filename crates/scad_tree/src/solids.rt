//! What is known of the surfaces of a tree.
ghost use Rattle.std.specs.Prelude.{All};
ghost use Rattle.scad_solid.specs.Solid.{IsSolid};
ghost use Rattle.scad_tree.specs.Order.{all_surfaces};
ghost use Rattle.scad_tree.specs.Solid.{members};
ghost use Rattle.scad_tree.specs.Solids.{AreSolids};
ghost use Rattle.scad_tree.specs.View.{solid_of, solids};

use crate::node::Node;
use crate::tree::Tree;

impl Tree {
    /// Each leaf of a tree is the surface of a solid. A leaf says so itself, and all that is done is to ask each.
    pub fn are_solids(&self)
        ensures { AreSolids (solid_of self.now) }
    {
        node_is_of_solids(self.as_node());
    }
}

#[cycle(solids)]
fn node_is_of_solids(node: &Node)
    ensures { AreSolids (solid_of node.now) }
{
    match node {
        Node::Empty => {}
        Node::Leaf(triangles) => {
            triangles.as_slice();
        }
        Node::Union(members) => nodes_are_of_solids(members),
        Node::Inter(members) => nodes_are_of_solids(members),
        Node::Diff(first, rest) => {
            node_is_of_solids(first);
            nodes_are_of_solids(rest);
        }
    }
}

#[cycle(solids)]
fn nodes_are_of_solids(nodes: &[Node])
    ensures { All IsSolid (all_surfaces (members (solids nodes.now))) }
{
    for node in nodes {
        node_is_of_solids(node);
    }
}
