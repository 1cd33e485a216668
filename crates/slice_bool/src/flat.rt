//! The pieces on a level.
ghost use Rattle.std.specs.Prelude.{◌≡◌, ◌<◌, ◌++◌, true, false, length, OnOk, All};
ghost use Rattle.scad_geom.specs.Limits.{coordinate_limit};
ghost use Rattle.scad_geom.specs.Level.{IsLevelWithin};
ghost use Rattle.slice_border.specs.Pieces.{flat_pieces};
ghost use Rattle.slice_border.specs.Stops.{spots_in};
ghost use Rattle.slice_bool.specs.Near.{AreFlats, AreEdgesNear};
ghost use Rattle.slice_bool.specs.BothSides.{AreSides};
ghost use Rattle.slice_bool.specs.Parts.{AreOnLevel, Extends};
ghost use Rattle.slice_bool.specs.Along.{AreAlong, covered_piece};

use crate::beside::{Sides, values_beside};
use crate::border_piece::push_between;
use crate::covering::covering_edge;
use crate::near::Near;
use crate::stops::stops;
use crate::sweep::Sweep;
use scad_geom::Level;
use slice_border::Stop;
use slice_pieces::Piece;
use std::alloc::AllocError;

/// The pieces on a level: none where no flat edge lies on it.
pub(crate) fn push_flat_pieces(
    sweep: &Sweep<'_>,
    near: &Near,
    sides: &Sides<'_>,
    out: &mut Vec<Piece>,
    at: &Level,
) -> Result<(), AllocError>
    requires at { IsLevelWithin coordinate_limit at.now }
    requires near { AreEdgesNear sweep.now.edges.now at.now near.now }
    requires sides { AreSides sweep.now.edges.now sweep.now.shape.now at.now sides.now }
    ensures { OnOk result
        (Extends (AreOnLevel sweep.now.edges.now sweep.now.shape.now at.now) out.old.items out.new.items) }
{
    if near.flats.is_empty() {
        return Ok(());
    }
    push_covered(sweep, near, sides, out, at)
}

fn push_covered(
    sweep: &Sweep<'_>,
    near: &Near,
    sides: &Sides<'_>,
    out: &mut Vec<Piece>,
    at: &Level,
) -> Result<(), AllocError>
    requires at { IsLevelWithin coordinate_limit at.now }
    requires near { AreEdgesNear sweep.now.edges.now at.now near.now }
    requires flats { 0 < length near.now.flats.items }
    requires sides { AreSides sweep.now.edges.now sweep.now.shape.now at.now sides.now }
    ensures { OnOk result
        (Extends (AreOnLevel sweep.now.edges.now sweep.now.shape.now at.now) out.old.items out.new.items) }
{
    let stops = stops(sweep.alloc, &near.touching, at)?;
    let above = values_beside(sweep, sides.above, &stops)?;
    let below = values_beside(sweep, sides.below, &stops)?;
    push_stretches(sweep, &near.flats, out, &stops, &above, &below)
}

// From stop to stop, with what the shape holds hard by each to its right, just above the level and just below.
fn push_stretches(
    sweep: &Sweep<'_>,
    flats: &[u32],
    out: &mut Vec<Piece>,
    stops: &[Stop],
    above: &[bool],
    below: &[bool],
) -> Result<(), AllocError>
    requires flats { All (λ s. AreFlats sweep.now.edges.now s.spot.at flats.now) stops.now }
    requires above { AreAlong true sweep.now.edges.now sweep.now.shape.now stops.now above.now }
    requires below { AreAlong false sweep.now.edges.now sweep.now.shape.now stops.now below.now }
    ensures { OnOk result (out.new.items
        ≡ out.old.items ++ flat_pieces sweep.now.edges.now sweep.now.shape.now (spots_in stops.now)) }
{
    'stops: for i in 1..stops.len() {
        let (s, t) = (&stops[i - 1], &stops[i]);
        let name = covering_edge(sweep.edges, flats, s, t);
        push_covering(out, above[i - 1], below[i - 1], s, t, name)?;
    }
    Ok(())
}

// The piece between two neighbouring stops, where an edge covers the stretch between them.
fn push_covering(
    out: &mut Vec<Piece>,
    above: bool,
    below: bool,
    s: &Stop,
    t: &Stop,
    name: Option<u32>,
) -> Result<(), AllocError>
    ensures { OnOk result
        (out.new.items ≡ out.old.items ++ covered_piece above below s.now.spot t.now.spot name) }
{
    match name {
        None => Ok(()),
        Some(name) => push_between(out, above, below, &s.spot, &t.spot, name),
    }
}
