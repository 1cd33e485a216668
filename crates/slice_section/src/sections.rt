//! Sections of solids.
ghost use Rattle.std.specs.Prelude.{◌≡◌, [], ◌∷◌, ◌++◌, IsTrue, IfOk, OnOk};
ghost use Rattle.scad_geom.specs.Segment.{segments};
ghost use Rattle.scad_geom.specs.Balance.{IsBalanced};
ghost use Rattle.scad_solid.specs.Range.{is_triangle_in_range};
ghost use Rattle.slice_section.specs.Section.{section_of, edges_at};

use crate::cut::edge_of;
use crate::plane::plane_of;
use scad_geom::Edge;
use scad_solid::{Triangle, Triangles};
use std::alloc::{AllocError, Global};

/// The section of a solid at a layer of height `h` micrometres: one edge for each triangle that the
/// layer's plane divides, in their order, from the point on the side that falls through the plane to
/// the point on the side that rises through it, both rounded to whole micrometres, halves downwards.
/// Edges whose ends then coincide are left out. The plane stands at `layer * h + h / 2`, by whole
/// division, plus one half.
pub fn section(
    alloc: Global,
    solid: &Triangles,
    layer: u32,
    h: u32,
) -> Result<Vec<Edge>, AllocError>
    ensures edges { IfOk result (λ v. v.items ≡ section_of solid.now layer h) }
    ensures balanced { IfOk result (λ v. IsBalanced (segments v.items)) }
{
    let plane = plane_of(layer, h);
    let mut edges = Vec::new(alloc);
    for triangle in solid.as_slice() {
        push_edge(&mut edges, triangle, plane)?;
    }
    Ok(edges)
}

// The triangle's edge, where it has one with differing ends.
fn push_edge(edges: &mut Vec<Edge>, triangle: &Triangle, plane: i128) -> Result<(), AllocError>
    requires { IsTrue (is_triangle_in_range triangle.now) }
    ensures { OnOk result (edges.new.items ≡ edges.old.items ++ edges_at plane (triangle.now ∷ [])) }
{
    match edge_of(triangle, plane) {
        Some(edge) => {
            if edge.a != edge.b {
                edges.push(edge)?;
            }
        }
        None => {}
    }
    Ok(())
}
