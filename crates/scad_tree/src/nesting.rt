//! How deep the parts of a tree lie in one another.
ghost use Rattle.std.specs.Prelude.{◌≡◌, ◌-◌, ◌^◌, min};
ghost use Rattle.scad_tree.specs.Nesting.{nesting, deepest};
ghost use Rattle.scad_tree.specs.Solid.{members};
ghost use Rattle.scad_tree.specs.View.{solid_of, solids};

use crate::node::Node;
use crate::tree::Tree;

impl Tree {
    /// 1 at a leaf, and one more at each operation than at its deepest member; 0 for the empty tree. Where
    /// there are more than 2^32 - 1, this number.
    pub fn nesting(&self) -> u32
        ensures { result ≡ min (nesting (solid_of self.now)) (2 ^ 32 - 1) }
    {
        nesting(self.as_node())
    }
}

#[cycle(nesting)]
#[tactic(auto, using(crate::proofs::Rows::at_operation))]
fn nesting(node: &Node) -> u32
    ensures { result ≡ min (nesting (solid_of node.now)) (2 ^ 32 - 1) }
{
    match node {
        Node::Empty => 0,
        Node::Leaf(_) => 1,
        Node::Union(members) => deepest(members).saturating_add(1),
        Node::Inter(members) => deepest(members).saturating_add(1),
        Node::Diff(first, rest) => nesting(first).max(deepest(rest)).saturating_add(1),
    }
}

#[cycle(nesting)]
#[tactic(auto, using(crate::proofs::Rows::left))]
fn deepest(nodes: &[Node]) -> u32
    ensures { result ≡ min (deepest (members (solids nodes.now))) (2 ^ 32 - 1) }
{
    let mut depth = 0u32;
    for node in nodes {
        depth = depth.max(nesting(node));
    }
    depth
}
