//! Set operations of trees.
ghost use Rattle.std.specs.Prelude.{◌≡◌, IfOk, true};
ghost use Rattle.std.specs.List.{list_all};
ghost use Rattle.scad_tree.specs.View.{solid_of, solids};
ghost use Rattle.scad_tree.specs.Normal.{united, intersected, subtracted, not_empty, is_kept};

use crate::node::Node;
use crate::normal::{intersection_of, is_empty, push_parts, union_of, without};
use crate::tree::Tree;
use std::alloc::{AllocError, Global};

/// The union in normal form: empty members are dropped, the members of a member union are taken in,
/// and one member alone is itself.
pub fn unite(alloc: Global, members: Vec<Tree>) -> Result<Tree, AllocError>
    ensures { IfOk result (λ t. solid_of t ≡ united (solids members.items)) }
{
    let mut parts = Vec::new(alloc);
    for member in members {
        push_parts(&mut parts, member.into_node())?;
    }
    Ok(Tree::from_normal(union_of(parts)))
}

/// The intersection in normal form: without members, or with an empty one, it is empty, and one member
/// alone is itself.
pub fn intersect(alloc: Global, members: Vec<Tree>) -> Result<Tree, AllocError>
    ensures { IfOk result (λ t. solid_of t ≡ intersected (solids members.items)) }
{
    let mut nodes = Vec::new(alloc);
    for member in members {
        let node = member.into_node();
        if is_empty(&node) {
            return Ok(Tree::empty());
        }
        nodes.push(node)?;
    }
    Ok(Tree::from_normal(intersection_of(nodes)))
}

/// The first member without the others, in normal form: without members, or where the first is empty,
/// it is empty, and a first member that nothing is taken from is itself.
pub fn subtract(alloc: Global, mut members: Vec<Tree>) -> Result<Tree, AllocError>
    ensures { IfOk result (λ t. solid_of t ≡ subtracted (solids members.items)) }
{
    if members.len() < 1 {
        return Ok(Tree::empty());
    }
    let first = members.remove(0).into_node();
    if is_empty(&first) {
        return Ok(Tree::empty());
    }
    let rest = full(alloc, members)?;
    Ok(Tree::from_normal(without(alloc, first, rest)?))
}

// The members that aren't empty.
fn full(alloc: Global, members: Vec<Tree>) -> Result<Vec<Node>, AllocError>
    ensures full { IfOk result (λ v. solids v.items ≡ not_empty (solids members.items)) }
    ensures kept { IfOk result (λ v. list_all is_kept (solids v.items) ≡ true) }
{
    let mut nodes = Vec::new(alloc);
    for member in members {
        let node = member.into_node();
        if !is_empty(&node) {
            nodes.push(node)?;
        }
    }
    Ok(nodes)
}
