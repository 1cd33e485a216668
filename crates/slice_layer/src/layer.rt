//! The outlines of a layer.
ghost use Rattle.std.specs.Prelude.{◌≤◌, length, All, IfOk, IfErr};
ghost use Rattle.scad_geom.specs.Limits.{point_limit};
ghost use Rattle.scad_geom.specs.Within.{IsWithin};
ghost use Rattle.slice_events.specs.Limits.{crossing_limit};
ghost use Rattle.slice_events.specs.Levels.{crossings};
ghost use Rattle.scad_tree.specs.Sections.{tree_section};
ghost use Rattle.scad_tree.specs.View.{solid_of};
ghost use Rattle.slice_layer.specs.Border.{AreNearSectionBorder};
ghost use Rattle.slice_layer.specs.Membership.{HoldCentres};
ghost use Rattle.slice_layer.specs.Outlines.{AreLayerOutlines};
ghost use Rattle.slice_layer.specs.Refusal.{IsRefusal};

use scad_geom::Loop;
use scad_tree::Tree;
use slice_border::BoolFault;
use slice_outlines::outlines;
use std::alloc::Global;

/// The closed outlines of a tree at a layer of height `h` micrometres, with the inside on their left.
///
/// Where no point of a cut of the tree at the layer's plane lies within one micrometre of a cell centre along both
/// axes, they wind once round the centre if the tree contains it, and not at all round it if it doesn't. Each point
/// of each of their sides lies less than one micrometre along both axes from a point hard by which the tree's section
/// holds on one side and not on another. No coordinate of theirs is greater in size than 1,000,000.
///
/// They are refused exactly where the section has more edges than the limit, and then where more than 2,000,000 pairs
/// of them cross.
pub fn layer_outlines(
    alloc: Global,
    tree: &Tree,
    layer: u32,
    h: u32,
    limit: u32,
) -> Result<Vec<Loop>, BoolFault>
    ensures outlines { IfOk result (λ v. AreLayerOutlines layer h (solid_of tree.now) v.items) }
    ensures centres { IfOk result (λ v. HoldCentres layer h (solid_of tree.now) v.items) }
    ensures near { IfOk result (λ v. AreNearSectionBorder layer h (solid_of tree.now) v.items) }
    ensures within { IfOk result (λ v. All (λ l. All (IsWithin point_limit) l) v.items) }
    ensures few { IfOk result (λ v. length (tree_section layer h (solid_of tree.now)) ≤ limit) }
    ensures accepted { IfOk result (λ v. crossings (tree_section layer h (solid_of tree.now)) ≤ crossing_limit) }
    ensures refused { IfErr result (IsRefusal (length (tree_section layer h (solid_of tree.now))) limit (crossings (tree_section layer h (solid_of tree.now)))) }
{
    let Ok(edges) = tree.edges(alloc, layer, h) else {
        return Err(BoolFault::Memory);
    };
    let Ok(shape) = tree.shape(alloc) else {
        return Err(BoolFault::Memory);
    };
    tree.are_solids();
    outlines(alloc, &edges, &shape, limit)
}
