//! The shape of a tree over numbered leaves.
ghost use Rattle.std.specs.Prelude.{◌≡◌, ◌+◌, IfOk};
ghost use Rattle.scad_tree.specs.LeafNumbers.{numbered_from, all_numbered, numbered_of, shapes_onto, end};
ghost use Rattle.scad_tree.specs.Order.{leaves, all_leaves};
ghost use Rattle.scad_tree.specs.Solid.{members};
ghost use Rattle.scad_tree.specs.View.{solid_of, solids};

use crate::node::Node;
use crate::number::next;
use crate::tree::Tree;
use scad_geom::Shape;
use std::alloc::{AllocError, Global};

impl Tree {
    /// The tree's shape, over the numbers of its leaves, which count from 0 in tree order.
    pub fn shape(&self, alloc: Global) -> Result<Shape, AllocError>
        ensures { IfOk result (λ s. numbered_of s ≡ numbered_from 0 (solid_of self.now)) }
    {
        let (shape, _) = shape_from(alloc, self.as_node(), 0)?;
        Ok(shape)
    }
}

// The shape of a node whose first leaf has this number, and the number of the next leaf.
#[cycle(shape)]
#[tactic(auto, using(crate::proofs::Rows::at_operation, crate::proofs::Numbering::shape_views))]
fn shape_from(alloc: Global, node: &Node, leaf: u32) -> Result<(Shape, u32), AllocError>
    ensures shape { IfOk result (λ r. numbered_of r.0 ≡ numbered_from leaf (solid_of node.now)) }
    ensures next { IfOk result (λ r. r.1 ≡ leaf + leaves (solid_of node.now)) }
{
    match node {
        Node::Empty => Ok((Shape::Empty, leaf)),
        Node::Leaf(_) => Ok((Shape::Leaf(leaf), next(leaf)?)),
        Node::Union(members) => {
            let (shapes, after) = shapes_from(alloc, members, leaf)?;
            Ok((Shape::Union(shapes), after))
        }
        Node::Inter(members) => {
            let (shapes, after) = shapes_from(alloc, members, leaf)?;
            Ok((Shape::Inter(shapes), after))
        }
        Node::Diff(first, rest) => {
            let (base, leaf) = shape_from(alloc, first, leaf)?;
            let (shapes, after) = shapes_from(alloc, rest, leaf)?;
            Ok((Shape::Diff(Box::new(alloc, base)?, shapes), after))
        }
    }
}

#[cycle(shape)]
#[tactic(auto, using(crate::proofs::Rows::left, crate::proofs::Numbering::shapes_onto_push))]
fn shapes_from(alloc: Global, nodes: &[Node], leaf: u32) -> Result<(Vec<Shape>, u32), AllocError>
    ensures shapes { IfOk result (λ r. shapes_onto r.0.items end ≡ all_numbered leaf (members (solids nodes.now))) }
    ensures next { IfOk result (λ r. r.1 ≡ leaf + all_leaves (members (solids nodes.now))) }
{
    let mut shapes = Vec::new(alloc);
    let mut leaf = leaf;
    for node in nodes {
        let (shape, after) = shape_from(alloc, node, leaf)?;
        shapes.push(shape)?;
        leaf = after;
    }
    Ok((shapes, leaf))
}
