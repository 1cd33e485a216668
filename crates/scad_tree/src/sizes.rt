//! How many leaves a tree has, and how many triangles.
ghost use Rattle.std.specs.Prelude.{◌≡◌, ◌-◌, ◌^◌, min};
ghost use Rattle.scad_tree.specs.Order.{leaves, all_leaves};
ghost use Rattle.scad_tree.specs.Sizes.{triangle_count, triangle_counts};
ghost use Rattle.scad_tree.specs.Solid.{members};
ghost use Rattle.scad_tree.specs.View.{solid_of, solids};

use crate::node::Node;
use crate::tree::Tree;

impl Tree {
    /// How many leaves the tree has. Where there are more than 2^64 - 1, this number.
    pub fn leaves(&self) -> u64
        ensures { result ≡ min (leaves (solid_of self.now)) (2 ^ 64 - 1) }
    {
        leaves(self.as_node())
    }

    /// How many triangles the leaves have together. Where there are more than 2^64 - 1, this number.
    pub fn triangles(&self) -> u64
        ensures { result ≡ min (triangle_count (solid_of self.now)) (2 ^ 64 - 1) }
    {
        triangles(self.as_node())
    }
}

#[cycle(leaves)]
#[tactic(auto, using(crate::proofs::Rows::at_operation, crate::proofs::Lines::leaves_by_parts))]
fn leaves(node: &Node) -> u64
    ensures { result ≡ min (leaves (solid_of node.now)) (2 ^ 64 - 1) }
{
    match node {
        Node::Empty => 0,
        Node::Leaf(_) => 1,
        Node::Union(members) => all_leaves(members),
        Node::Inter(members) => all_leaves(members),
        Node::Diff(first, rest) => leaves(first).saturating_add(all_leaves(rest)),
    }
}

#[cycle(leaves)]
#[tactic(auto, using(crate::proofs::Rows::left, crate::proofs::Lines::leaves_by_parts))]
fn all_leaves(nodes: &[Node]) -> u64
    ensures { result ≡ min (all_leaves (members (solids nodes.now))) (2 ^ 64 - 1) }
{
    let mut count = 0u64;
    'nodes: for node in nodes {
        count = count.saturating_add(leaves(node));
    }
    count
}

#[cycle(triangles)]
#[tactic(auto, using(crate::proofs::Rows::at_operation))]
fn triangles(node: &Node) -> u64
    ensures { result ≡ min (triangle_count (solid_of node.now)) (2 ^ 64 - 1) }
{
    match node {
        Node::Empty => 0,
        Node::Leaf(surface) => surface.count() as u64,
        Node::Union(members) => all_triangles(members),
        Node::Inter(members) => all_triangles(members),
        Node::Diff(first, rest) => triangles(first).saturating_add(all_triangles(rest)),
    }
}

#[cycle(triangles)]
#[tactic(auto, using(crate::proofs::Rows::left))]
fn all_triangles(nodes: &[Node]) -> u64
    ensures { result ≡ min (triangle_counts (members (solids nodes.now))) (2 ^ 64 - 1) }
{
    let mut count = 0u64;
    'nodes: for node in nodes {
        count = count.saturating_add(triangles(node));
    }
    count
}
