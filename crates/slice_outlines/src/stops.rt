//! The distinct places of a stretch of a height, from left to right.
ghost use Rattle.std.specs.Prelude.{◌≡◌, ◌++◌, ◌∷◌, [], true, IfOk, OnOk, All};
ghost use Rattle.scad_geom.specs.Limits.{coordinate_limit};
ghost use Rattle.scad_geom.specs.Within.{IsEdgeWithin};
ghost use Rattle.scad_geom.specs.Level.{IsLevelWithin};
ghost use Rattle.slice_bundles.specs.Bundles.{edge_at};
ghost use Rattle.slice_border.specs.Pieces.{whole_spot, passes_at};
ghost use Rattle.slice_outlines.specs.Marks.{spot_at};
ghost use Rattle.slice_border.specs.Stops.{spots_in, AreStopsOf};
ghost use Rattle.slice_outlines.specs.Stops.{mark_spots, flat_spots, AllPass};

use crate::flat::Flat;
use crate::mark::Mark;
use scad_geom::{LeafEdge, Level};
use slice_border::{Stop, distinct_stops, spot_on, whole_spot};
use std::alloc::{AllocError, Global};

/// The places of strands below the height and above it, and of the ends of flat edges.
pub(crate) fn stops(
    alloc: Global,
    edges: &[LeafEdge],
    at: &Level,
    below: &[Mark],
    above: &[Mark],
    flats: &[Flat],
) -> Result<Vec<Stop>, AllocError>
    requires within { All (λ e. IsEdgeWithin coordinate_limit e.edge) edges.now }
    requires at { IsLevelWithin coordinate_limit at.now }
    requires below { AllPass edges.now at.now below.now }
    requires above { AllPass edges.now at.now above.now }
    ensures { IfOk result (λ v. AreStopsOf (mark_spots edges.now at.now below.now
        ++ (mark_spots edges.now at.now above.now ++ flat_spots at.now flats.now)) (spots_in v.items)) }
{
    let mut all = all_stops(alloc, edges, at, below, above, flats)?;
    distinct_stops(alloc, &mut all)
}

fn all_stops(
    alloc: Global,
    edges: &[LeafEdge],
    at: &Level,
    below: &[Mark],
    above: &[Mark],
    flats: &[Flat],
) -> Result<Vec<Stop>, AllocError>
    requires within { All (λ e. IsEdgeWithin coordinate_limit e.edge) edges.now }
    requires at { IsLevelWithin coordinate_limit at.now }
    requires below { AllPass edges.now at.now below.now }
    requires above { AllPass edges.now at.now above.now }
    ensures { IfOk result (λ v. spots_in v.items ≡ mark_spots edges.now at.now below.now
        ++ (mark_spots edges.now at.now above.now ++ flat_spots at.now flats.now)) }
{
    let mut all = Vec::new(alloc);
    push_strands(&mut all, edges, at, below)?;
    push_strands(&mut all, edges, at, above)?;
    push_flats(&mut all, at, flats)?;
    Ok(all)
}

fn push_strands(
    out: &mut Vec<Stop>,
    edges: &[LeafEdge],
    at: &Level,
    marks: &[Mark],
) -> Result<(), AllocError>
    requires within { All (λ e. IsEdgeWithin coordinate_limit e.edge) edges.now }
    requires at { IsLevelWithin coordinate_limit at.now }
    requires marks { AllPass edges.now at.now marks.now }
    ensures { OnOk result
        (spots_in out.new.items ≡ spots_in out.old.items ++ mark_spots edges.now at.now marks.now) }
{
    'marks: for mark in marks {
        out.push(stop_of(edges, mark, at))?;
    }
    Ok(())
}

/// Where the edge of a strand's name passes a height.
pub(crate) fn stop_of(edges: &[LeafEdge], mark: &Mark, at: &Level) -> Stop
    requires within { All (λ e. IsEdgeWithin coordinate_limit e.edge) edges.now }
    requires at { IsLevelWithin coordinate_limit at.now }
    requires passes { passes_at (edge_at edges.now mark.now.name) at.now ≡ true }
    ensures { result.spot ≡ spot_at edges.now at.now mark.now }
{
    spot_on(&edges[mark.name as usize].edge, at)
}

fn push_flats(out: &mut Vec<Stop>, at: &Level, flats: &[Flat]) -> Result<(), AllocError>
    requires at { IsLevelWithin coordinate_limit at.now }
    ensures { OnOk result (spots_in out.new.items ≡ spots_in out.old.items ++ flat_spots at.now flats.now) }
{
    'flats: for e in flats {
        push_ends(out, at, e)?;
    }
    Ok(())
}

fn push_ends(out: &mut Vec<Stop>, at: &Level, e: &Flat) -> Result<(), AllocError>
    requires at { IsLevelWithin coordinate_limit at.now }
    ensures { OnOk result (spots_in out.new.items ≡ spots_in out.old.items
        ++ whole_spot e.now.left at.now ∷ (whole_spot e.now.right at.now ∷ [])) }
{
    out.push(whole_spot(e.left, at))?;
    out.push(whole_spot(e.right, at))?;
    Ok(())
}
