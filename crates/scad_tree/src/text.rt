//! The text of a tree.
ghost use Rattle.std.specs.Prelude.{◌≡◌, ◌+◌, ◌++◌, IfOk, OnOk};
ghost use Rattle.scad_tree.specs.Order.{leaves, all_leaves};
ghost use Rattle.scad_tree.specs.Solid.{members};
ghost use Rattle.scad_tree.specs.Text.{indent, line, leaf_text, lines, all_lines, text_of};
ghost use Rattle.scad_tree.specs.Text.{empty_name, union_name, intersection_name, difference_name, triangles_end};
ghost use Rattle.scad_tree.specs.View.{solid_of, solids};

use crate::node::Node;
use crate::number::next;
use crate::tree::Tree;
use scad_fault::Text;
use scad_solid::Triangles;
use std::alloc::{AllocError, Global};
use text_scan::push_number;

impl Tree {
    /// One line for each node: its name, a leaf's with its number in tree order and that of its triangles,
    /// two spaces further in than the operation that it is a member of.
    pub fn print(&self, alloc: Global) -> Result<Text, AllocError>
        ensures { IfOk result (λ text. text ≡ text_of (solid_of self.now)) }
    {
        let mut out = Vec::new(alloc);
        push_node(&mut out, self.as_node(), 0, 0)?;
        Ok(Text::from_vec(out))
    }
}

// The lines of a node whose first leaf has this number; gives the number of the next leaf.
#[cycle(text)]
#[tactic(auto, using(crate::proofs::Rows::at_operation))]
fn push_node(out: &mut Vec<u8>, node: &Node, level: u32, leaf: u32) -> Result<u32, AllocError>
    ensures text { OnOk result (out.new.items ≡ out.old.items ++ lines level leaf (solid_of node.now)) }
    ensures next { IfOk result (λ n. n ≡ leaf + leaves (solid_of node.now)) }
{
    match node {
        Node::Empty => {
            push_empty(out, level)?;
            Ok(leaf)
        }
        Node::Leaf(triangles) => {
            push_leaf(out, level, leaf, triangles)?;
            next(leaf)
        }
        Node::Union(members) => {
            push_union(out, level)?;
            let after = push_members(out, members, next(level)?, leaf)?;
            Ok(after)
        }
        Node::Inter(members) => {
            push_intersection(out, level)?;
            let after = push_members(out, members, next(level)?, leaf)?;
            Ok(after)
        }
        Node::Diff(first, rest) => {
            push_difference(out, level)?;
            let inner = next(level)?;
            let leaf = push_node(out, first, inner, leaf)?;
            let after = push_members(out, rest, inner, leaf)?;
            Ok(after)
        }
    }
}

// The lines of an operation's members, one level further in than its own.
#[cycle(text)]
#[tactic(auto, using(crate::proofs::Rows::left))]
fn push_members(out: &mut Vec<u8>, nodes: &[Node], level: u32, leaf: u32) -> Result<u32, AllocError>
    ensures text { OnOk result (out.new.items ≡ out.old.items ++ all_lines level leaf (members (solids nodes.now))) }
    ensures next { IfOk result (λ n. n ≡ leaf + all_leaves (members (solids nodes.now))) }
{
    let mut leaf = leaf;
    for node in nodes {
        leaf = push_node(out, node, level, leaf)?;
    }
    Ok(leaf)
}

#[tactic(auto, unfolding(crate::specs::Text::empty_name))]
fn push_empty(out: &mut Vec<u8>, level: u32) -> Result<(), AllocError>
    ensures { OnOk result (out.new.items ≡ out.old.items ++ line level empty_name) }
{
    push_line(out, level, b"empty")
}

#[tactic(auto, unfolding(crate::specs::Text::union_name))]
fn push_union(out: &mut Vec<u8>, level: u32) -> Result<(), AllocError>
    ensures { OnOk result (out.new.items ≡ out.old.items ++ line level union_name) }
{
    push_line(out, level, b"union")
}

#[tactic(auto, unfolding(crate::specs::Text::intersection_name))]
fn push_intersection(out: &mut Vec<u8>, level: u32) -> Result<(), AllocError>
    ensures { OnOk result (out.new.items ≡ out.old.items ++ line level intersection_name) }
{
    push_line(out, level, b"intersection")
}

#[tactic(auto, unfolding(crate::specs::Text::difference_name))]
fn push_difference(out: &mut Vec<u8>, level: u32) -> Result<(), AllocError>
    ensures { OnOk result (out.new.items ≡ out.old.items ++ line level difference_name) }
{
    push_line(out, level, b"difference")
}

fn push_line(out: &mut Vec<u8>, level: u32, text: &[u8]) -> Result<(), AllocError>
    ensures { OnOk result (out.new.items ≡ out.old.items ++ line level text.now) }
{
    push_indent(out, level)?;
    out.extend_from_slice(text)?;
    out.push(b'\n')?;
    Ok(())
}

// Two spaces a level.
fn push_indent(out: &mut Vec<u8>, level: u32) -> Result<(), AllocError>
    ensures { OnOk result (out.new.items ≡ out.old.items ++ indent level) }
{
    'levels: for _ in 0..level {
        out.extend_from_slice(b"  ")?;
    }
    Ok(())
}

fn push_leaf(
    out: &mut Vec<u8>,
    level: u32,
    leaf: u32,
    triangles: &Triangles,
) -> Result<(), AllocError>
    ensures { OnOk result (out.new.items ≡ out.old.items ++ line level (leaf_text leaf triangles.now)) }
{
    push_indent(out, level)?;
    push_leaf_text(out, leaf, triangles)?;
    out.push(b'\n')?;
    Ok(())
}

fn push_leaf_text(out: &mut Vec<u8>, leaf: u32, triangles: &Triangles) -> Result<(), AllocError>
    ensures { OnOk result (out.new.items ≡ out.old.items ++ leaf_text leaf triangles.now) }
{
    out.extend_from_slice(b"leaf ")?;
    push_number(out, leaf)?;
    out.extend_from_slice(b": ")?;
    push_number(out, triangles.count() as u64)?;
    push_triangles_end(out)
}

#[tactic(auto, unfolding(crate::specs::Text::triangles_end))]
fn push_triangles_end(out: &mut Vec<u8>) -> Result<(), AllocError>
    ensures { OnOk result (out.new.items ≡ out.old.items ++ triangles_end) }
{
    out.extend_from_slice(b" triangles")
}
