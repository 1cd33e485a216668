//! Whether a tree is made by union alone.
ghost use Rattle.std.specs.Prelude.{◌≡◌};
ghost use Rattle.scad_tree.specs.Normal.{is_nothing};
ghost use Rattle.scad_tree.specs.Points.{is_united, are_united};
ghost use Rattle.scad_tree.specs.Solid.{members};
ghost use Rattle.scad_tree.specs.View.{solid_of, solids};

use crate::node::Node;
use crate::normal;
use crate::tree::Tree;

impl Tree {
    /// Whether the tree is the empty one.
    pub fn is_empty(&self) -> bool
        ensures { result ≡ is_nothing (solid_of self.now) }
    {
        normal::is_empty(self.as_node())
    }

    /// Whether no part of the tree is an intersection or a difference.
    pub fn is_united(&self) -> bool
        ensures { result ≡ is_united (solid_of self.now) }
    {
        is_united(self.as_node())
    }
}

#[cycle(united)]
#[tactic(auto, using(crate::proofs::Rows::at_operation))]
fn is_united(node: &Node) -> bool
    ensures { result ≡ is_united (solid_of node.now) }
{
    match node {
        Node::Empty => true,
        Node::Leaf(_) => true,
        Node::Union(members) => are_united(members),
        Node::Inter(_) => false,
        Node::Diff(_, _) => false,
    }
}

#[cycle(united)]
#[tactic(auto, using(crate::proofs::Rows::left))]
fn are_united(nodes: &[Node]) -> bool
    ensures { result ≡ are_united (members (solids nodes.now)) }
{
    'nodes: for node in nodes {
        if !is_united(node) {
            return false;
        }
    }
    true
}
