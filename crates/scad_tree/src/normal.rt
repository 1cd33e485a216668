//! Nodes in normal form from their parts.
ghost use Rattle.std.specs.Prelude.{◌≡◌, ◌++◌, [], ◌∷◌, IfOk, OnOk};
ghost use Rattle.scad_tree.specs.View.{solid_of, solids};
ghost use Rattle.scad_tree.specs.Normal.{parts, union_of, intersection_of, without, is_nothing};

use crate::node::Node;
use std::alloc::{AllocError, Global};

/// Adds what a node adds to a union.
pub(crate) fn push_parts(out: &mut Vec<Node>, node: Node) -> Result<(), AllocError>
    ensures { OnOk result (solids out.new.items ≡ solids out.old.items ++ parts (solid_of node)) }
{
    match node {
        Node::Empty => Ok(()),
        Node::Union(mut members) => out.append(&mut members),
        Node::Leaf(triangles) => push(out, Node::Leaf(triangles)),
        Node::Inter(members) => push(out, Node::Inter(members)),
        Node::Diff(first, rest) => push(out, Node::Diff(first, rest)),
    }
}

fn push(out: &mut Vec<Node>, node: Node) -> Result<(), AllocError>
    ensures { OnOk result (solids out.new.items ≡ solids out.old.items ++ (solid_of node ∷ [])) }
{
    out.push(node)?;
    Ok(())
}

/// Whether the node is the empty one.
pub(crate) fn is_empty(node: &Node) -> bool
    ensures { result ≡ is_nothing (solid_of node.now) }
{
    match node {
        Node::Empty => true,
        Node::Leaf(_) => false,
        Node::Union(_) => false,
        Node::Inter(_) => false,
        Node::Diff(_, _) => false,
    }
}

/// The union of parts.
pub(crate) fn union_of(mut parts: Vec<Node>) -> Node
    ensures { solid_of result ≡ union_of (solids parts.items) }
{
    if parts.len() >= 2 {
        return Node::Union(parts);
    }
    match parts.pop() {
        Some(only) => only,
        None => Node::Empty,
    }
}

/// The intersection of members that aren't empty.
pub(crate) fn intersection_of(mut members: Vec<Node>) -> Node
    ensures { solid_of result ≡ intersection_of (solids members.items) }
{
    if members.len() >= 2 {
        return Node::Inter(members);
    }
    match members.pop() {
        Some(only) => only,
        None => Node::Empty,
    }
}

/// A node without others that aren't empty.
pub(crate) fn without(alloc: Global, first: Node, rest: Vec<Node>) -> Result<Node, AllocError>
    ensures { IfOk result (λ n. solid_of n ≡ without (solid_of first) (solids rest.items)) }
{
    if rest.len() >= 1 {
        let first = Box::new(alloc, first)?;
        return Ok(Node::Diff(first, rest));
    }
    Ok(first)
}
