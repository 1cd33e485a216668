//! The edges in which the plane of a layer cuts a tree.
ghost use Rattle.std.specs.Prelude.{◌≡◌, ◌+◌, ◌++◌, IfOk, OnOk, map};
ghost use Rattle.scad_geom.specs.Leaves.{AreLeavesBalanced};
ghost use Rattle.scad_tree.specs.Order.{surfaces, all_surfaces, leaves, all_leaves};
ghost use Rattle.scad_tree.specs.Sections.{leaf_edge, leaf_section, sections_from, tree_section};
ghost use Rattle.scad_tree.specs.Solid.{members};
ghost use Rattle.scad_tree.specs.View.{solid_of, solids};

use crate::node::Node;
use crate::number::next;
use crate::tree::Tree;
use scad_geom::{Edge, LeafEdge};
use scad_solid::Triangles;
use slice_section::section;
use std::alloc::{AllocError, Global};

/// The plane of a layer.
#[derive(Clone, Copy)]
struct Layer {
    number: u32,
    height: u32,
}

impl Tree {
    /// The section of the tree at a layer of height `h` micrometres: the edges of the leaves' sections, leaf
    /// after leaf, with the leaves' numbers in tree order. The edges of each leaf are balanced.
    #[tactic(auto, using(crate::proofs::LeafSections::none_leaf))]
    pub fn edges(&self, alloc: Global, layer: u32, h: u32) -> Result<Vec<LeafEdge>, AllocError>
        ensures edges { IfOk result (λ v. v.items ≡ tree_section layer h (solid_of self.now)) }
        ensures balanced { IfOk result (λ v. AreLeavesBalanced v.items) }
    {
        let mut out = Vec::new(alloc);
        let at = Layer {
            number: layer,
            height: h,
        };
        push_node(alloc, &mut out, self.as_node(), at, 0)?;
        Ok(out)
    }
}

// The edges of a node whose first leaf has this number; gives the number of the next leaf.
#[cycle(edges)]
#[tactic(auto, using(crate::proofs::Rows::at_operation))]
fn push_node(
    alloc: Global,
    out: &mut Vec<LeafEdge>,
    node: &Node,
    at: Layer,
    leaf: u32,
) -> Result<u32, AllocError>
    ensures edges { OnOk result (out.new.items ≡ out.old.items ++ sections_from at.number at.height leaf (surfaces (solid_of node.now))) }
    ensures balanced { OnOk result (AreLeavesBalanced out.old.items → AreLeavesBalanced out.new.items) }
    ensures next { IfOk result (λ n. n ≡ leaf + leaves (solid_of node.now)) }
{
    match node {
        Node::Empty => Ok(leaf),
        Node::Leaf(triangles) => {
            push_leaf(alloc, out, triangles, at, leaf)?;
            next(leaf)
        }
        Node::Union(members) => {
            let after = push_members(alloc, out, members, at, leaf)?;
            Ok(after)
        }
        Node::Inter(members) => {
            let after = push_members(alloc, out, members, at, leaf)?;
            Ok(after)
        }
        Node::Diff(first, rest) => {
            let leaf = push_node(alloc, out, first, at, leaf)?;
            let after = push_members(alloc, out, rest, at, leaf)?;
            Ok(after)
        }
    }
}

#[cycle(edges)]
#[tactic(auto, using(crate::proofs::Rows::left))]
fn push_members(
    alloc: Global,
    out: &mut Vec<LeafEdge>,
    nodes: &[Node],
    at: Layer,
    leaf: u32,
) -> Result<u32, AllocError>
    ensures edges { OnOk result (out.new.items ≡ out.old.items ++ sections_from at.number at.height leaf (all_surfaces (members (solids nodes.now)))) }
    ensures balanced { OnOk result (AreLeavesBalanced out.old.items → AreLeavesBalanced out.new.items) }
    ensures next { IfOk result (λ n. n ≡ leaf + all_leaves (members (solids nodes.now))) }
{
    let mut leaf = leaf;
    for node in nodes {
        let after = push_node(alloc, out, node, at, leaf)?;
        leaf = after;
    }
    Ok(leaf)
}

#[tactic(auto, using(crate::proofs::LeafSections::balanced_more))]
fn push_leaf(
    alloc: Global,
    out: &mut Vec<LeafEdge>,
    triangles: &Triangles,
    at: Layer,
    leaf: u32,
) -> Result<(), AllocError>
    ensures edges { OnOk result (out.new.items ≡ out.old.items ++ leaf_section at.number at.height leaf triangles.now) }
    ensures balanced { OnOk result (AreLeavesBalanced out.old.items → AreLeavesBalanced out.new.items) }
{
    let edges = section(alloc, triangles, at.number, at.height)?;
    push_numbered(out, edges.as_slice(), leaf)?;
    Ok(())
}

fn push_numbered(out: &mut Vec<LeafEdge>, edges: &[Edge], leaf: u32) -> Result<(), AllocError>
    ensures { OnOk result (out.new.items ≡ out.old.items ++ map (leaf_edge leaf) edges.now) }
{
    'edges: for edge in edges {
        out.push(LeafEdge { leaf, edge: *edge })?;
    }
    Ok(())
}
