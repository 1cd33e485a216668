//! The distinct places where edges meet a height, from left to right.
ghost use Rattle.std.specs.Prelude.{◌≡◌, ◌<ℤ◌, pos, true, [], ◌∷◌, ◌++◌, OnOk, IfOk, All};
ghost use Rattle.scad_geom.specs.Limits.{coordinate_limit};
ghost use Rattle.scad_geom.specs.Line.{rise};
ghost use Rattle.scad_geom.specs.Within.{IsEdgeWithin};
ghost use Rattle.scad_geom.specs.Level.{IsLevelWithin};
ghost use Rattle.slice_border.specs.Pieces.{is_flat_at, passes_at, spots_at, AreStops, edge_spots};
ghost use Rattle.slice_border.specs.Stops.{spots_in};

use scad_geom::line::{ends_from, rise, starts_by};
use scad_geom::wide::times;
use scad_geom::{Edge, LeafEdge, Level};
use slice_border::{Stop, distinct_stops, spot_on, whole_spot};
use std::alloc::{AllocError, Global};

pub(crate) fn stops(alloc: Global, edges: &[LeafEdge], at: &Level) -> Result<Vec<Stop>, AllocError>
    requires within { All (λ e. IsEdgeWithin coordinate_limit e.edge) edges.now }
    requires at { IsLevelWithin coordinate_limit at.now }
    ensures { IfOk result (λ v. AreStops edges.now at.now (spots_in v.items)) }
{
    let mut all = spots(alloc, edges, at)?;
    distinct_stops(alloc, &mut all)
}

fn spots(alloc: Global, edges: &[LeafEdge], at: &Level) -> Result<Vec<Stop>, AllocError>
    requires within { All (λ e. IsEdgeWithin coordinate_limit e.edge) edges.now }
    requires at { IsLevelWithin coordinate_limit at.now }
    ensures { IfOk result (λ v. spots_in v.items ≡ spots_at edges.now at.now) }
{
    let mut out = Vec::new(alloc);
    'edges: for e in edges {
        push_spots(&mut out, &e.edge, at)?;
    }
    Ok(out)
}

fn push_spots(out: &mut Vec<Stop>, e: &Edge, at: &Level) -> Result<(), AllocError>
    requires edge { IsEdgeWithin coordinate_limit e.now }
    requires at { IsLevelWithin coordinate_limit at.now }
    ensures ok { OnOk result (spots_in out.new.items ≡ spots_in out.old.items ++ edge_spots e.now at.now) }
{
    if is_flat_at(e, at) {
        push(out, whole_spot(e.a.x, at))?;
        push(out, whole_spot(e.b.x, at))
    } else if passes_at(e, at) {
        push(out, spot_on(e, at))
    } else {
        Ok(())
    }
}

fn push(out: &mut Vec<Stop>, stop: Stop) -> Result<(), AllocError>
    ensures ok { OnOk result (spots_in out.new.items ≡ spots_in out.old.items ++ stop.spot ∷ []) }
{
    out.push(stop)?;
    Ok(())
}

/// Whether an edge is flat and lies at a height.
pub(crate) fn is_flat_at(e: &Edge, at: &Level) -> bool
    requires edge { IsEdgeWithin coordinate_limit e.now }
    requires at { IsLevelWithin coordinate_limit at.now }
    ensures { result ≡ is_flat_at e.now at.now }
{
    rise(e) == 0 && times::<21, 44>(e.a.y as i128, at.d) == at.n
}

/// Whether an edge isn't flat and meets a height.
pub(crate) fn passes_at(e: &Edge, at: &Level) -> bool
    requires edge { IsEdgeWithin coordinate_limit e.now }
    requires at { IsLevelWithin coordinate_limit at.now }
    ensures value { result ≡ passes_at e.now at.now }
    ensures rises { result ≡ true → pos 0 <ℤ rise e.now }
{
    rise(e) > 0 && (starts_by(e, at) && ends_from(e, at))
}
