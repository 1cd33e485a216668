//! The points of a tree.
ghost use Rattle.std.specs.Prelude.{◌≡◌, ◌++◌, IfOk, IsTrue, OnOk, true};
ghost use Rattle.std.specs.List.{list_all};
ghost use Rattle.scad_geom.specs.PointRange.{is_in_range};
ghost use Rattle.scad_solid.specs.Range.{is_triangle_in_range};
ghost use Rattle.scad_tree.specs.Points.{corners, points_of, all_points};
ghost use Rattle.scad_tree.specs.Solid.{members};
ghost use Rattle.scad_tree.specs.View.{solid_of, solids};

use crate::node::Node;
use crate::tree::Tree;
use scad_geom::Pt3;
use scad_solid::{Triangle, Triangles};
use std::alloc::{AllocError, Global};

impl Tree {
    /// The corners of the triangles of all leaves in tree order, three of each triangle.
    pub fn points(&self, alloc: Global) -> Result<Vec<Pt3>, AllocError>
        ensures all { IfOk result (λ v. v.items ≡ points_of (solid_of self.now)) }
        ensures range { IfOk result (λ v. IsTrue (list_all is_in_range v.items)) }
    {
        let mut points = Vec::new(alloc);
        push_node(&mut points, self.as_node())?;
        Ok(points)
    }
}

// The corners of a node behind points in range.
#[cycle(points)]
#[tactic(auto, using(crate::proofs::Rows::at_operation, crate::proofs::TreePoints::by_parts))]
fn push_node(out: &mut Vec<Pt3>, node: &Node) -> Result<(), AllocError>
    requires { list_all is_in_range out.old.items ≡ true }
    ensures all { OnOk result (out.new.items ≡ out.old.items ++ points_of (solid_of node.now)) }
    ensures range { OnOk result (list_all is_in_range out.new.items ≡ true) }
{
    match node {
        Node::Empty => Ok(()),
        Node::Leaf(triangles) => push_surface(out, triangles),
        Node::Union(members) => push_members(out, members),
        Node::Inter(members) => push_members(out, members),
        Node::Diff(first, rest) => {
            push_node(out, first)?;
            push_members(out, rest)
        }
    }
}

#[cycle(points)]
#[tactic(auto, using(crate::proofs::TreePoints::nodes_left))]
fn push_members(out: &mut Vec<Pt3>, nodes: &[Node]) -> Result<(), AllocError>
    requires { list_all is_in_range out.old.items ≡ true }
    ensures all { OnOk result (out.new.items ≡ out.old.items ++ all_points (members (solids nodes.now))) }
    ensures range { OnOk result (list_all is_in_range out.new.items ≡ true) }
{
    'nodes: for node in nodes {
        push_node(out, node)?;
    }
    Ok(())
}

fn push_surface(out: &mut Vec<Pt3>, surface: &Triangles) -> Result<(), AllocError>
    requires { list_all is_in_range out.old.items ≡ true }
    ensures all { OnOk result (out.new.items ≡ out.old.items ++ corners surface.now) }
    ensures range { OnOk result (list_all is_in_range out.new.items ≡ true) }
{
    push_corners(out, surface.as_slice())
}

#[tactic(auto, using(crate::proofs::TreePoints::triangles_left))]
fn push_corners(out: &mut Vec<Pt3>, triangles: &[Triangle]) -> Result<(), AllocError>
    requires before { list_all is_in_range out.old.items ≡ true }
    requires triangles { list_all is_triangle_in_range triangles.now ≡ true }
    ensures all { OnOk result (out.new.items ≡ out.old.items ++ corners triangles.now) }
    ensures range { OnOk result (list_all is_in_range out.new.items ≡ true) }
{
    'triangles: for t in triangles {
        out.push(t.a)?;
        out.push(t.b)?;
        out.push(t.c)?;
    }
    Ok(())
}
