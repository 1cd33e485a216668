//! The pieces between two neighbouring levels.
ghost use Rattle.std.specs.Prelude.{◌≡◌, ◌<ℤ◌, ◌++◌, [], pos, OnOk, IfOk, All};
ghost use Rattle.std.specs.List.{concat};
ghost use Rattle.scad_geom.specs.Limits.{coordinate_limit};
ghost use Rattle.scad_geom.specs.Line.{rise};
ghost use Rattle.scad_geom.specs.Within.{IsEdgeWithin};
ghost use Rattle.scad_geom.specs.Level.{IsLevelWithin};
ghost use Rattle.scad_geom.specs.Heights.{AreNeighbours};
ghost use Rattle.slice_bundles.specs.Bundles.{AreBundles};
ghost use Rattle.slice_border.specs.Pieces.{spot_on, piece_between, slab_pieces};
ghost use Rattle.slice_border.specs.Beside.{AreMembers, RisesFirst};
ghost use Rattle.slice_bool.specs.LeftValues.{AreLeftValues, piece_of};
ghost use Rattle.slice_border.specs.Keeping.{Tells};

use crate::beside::Valued;
use crate::border_piece::push_between;
use crate::sweep::Sweep;
use scad_geom::{Edge, LeafEdge, Level};
use slice_border::{Tally, spot_on};
use slice_bundles::Bundle;
use slice_pieces::Piece;
use std::alloc::AllocError;

/// The bundles between two levels, and the values beside them.
#[derive(Clone, Copy)]
pub(crate) struct Slab<'a> {
    pub(crate) lower: &'a Level,
    pub(crate) upper: &'a Level,
    pub(crate) side: &'a Valued,
}

pub(crate) fn push_slab_pieces(
    sweep: &Sweep<'_>,
    slab: &Slab<'_>,
    out: &mut Vec<Piece>,
) -> Result<(), AllocError>
    requires lower { IsLevelWithin coordinate_limit slab.now.lower.now }
    requires upper { IsLevelWithin coordinate_limit slab.now.upper.now }
    requires neighbours { AreNeighbours sweep.now.edges.now slab.now.lower.now slab.now.upper.now }
    requires bundles { AreBundles sweep.now.edges.now slab.now.lower.now slab.now.upper.now slab.now.side.now.bundles.items }
    requires values { AreLeftValues sweep.now.edges.now sweep.now.shape.now slab.now.side.now.bundles.items
        slab.now.side.now.values.items }
    ensures { OnOk result (out.new.items ≡ out.old.items ++ slab_pieces sweep.now.edges.now sweep.now.shape.now
        slab.now.lower.now slab.now.upper.now slab.now.side.now.bundles.items) }
{
    let count = slab.side.bundles.len();
    'bundles: for i in 0..count {
        let right = slab.side.values[count - i - 1];
        let left = slab.side.values[count - i];
        push_bundle(out, sweep.edges, slab, left, right, &slab.side.bundles[i])?;
    }
    Ok(())
}

// The piece of a bundle with these values to its left and to its right.
fn push_bundle(
    out: &mut Vec<Piece>,
    edges: &[LeafEdge],
    slab: &Slab<'_>,
    left: bool,
    right: bool,
    bundle: &Bundle,
) -> Result<(), AllocError>
    requires within { All (λ e. IsEdgeWithin coordinate_limit e.edge) edges.now }
    requires lower { IsLevelWithin coordinate_limit slab.now.lower.now }
    requires upper { IsLevelWithin coordinate_limit slab.now.upper.now }
    requires first { RisesFirst edges.now bundle.now }
    ensures { OnOk result (out.new.items
        ≡ out.old.items ++ piece_of edges.now slab.now.lower.now slab.now.upper.now left right bundle.now) }
{
    match bundle.as_slice() {
        [] => Ok(()),
        [k, ..] => push_passage(out, &edges[*k as usize].edge, slab, left, right, *k),
    }
}

// The piece of an edge with these values to its left and to its right.
fn push_passage(
    out: &mut Vec<Piece>,
    e: &Edge,
    slab: &Slab<'_>,
    left: bool,
    right: bool,
    name: u32,
) -> Result<(), AllocError>
    requires edge { IsEdgeWithin coordinate_limit e.now }
    requires lower { IsLevelWithin coordinate_limit slab.now.lower.now }
    requires upper { IsLevelWithin coordinate_limit slab.now.upper.now }
    requires rises { pos 0 <ℤ rise e.now }
    ensures { OnOk result (out.new.items ≡ out.old.items
        ++ piece_between left right (spot_on e.now slab.now.lower.now) (spot_on e.now slab.now.upper.now) name) }
{
    if left == right {
        return Ok(());
    }
    let from = spot_on(e, slab.lower);
    let to = spot_on(e, slab.upper);
    push_between(out, left, right, &from.spot, &to.spot, name)
}

/// The shape's values, from the right end to the left: outside, then to the left of each bundle.
pub(crate) fn left_values(
    sweep: &Sweep<'_>,
    tally: &mut Tally,
    bundles: &[Bundle],
) -> Result<Vec<bool>, AllocError>
    requires members { AreMembers sweep.now.edges.now bundles.now }
    requires tally { Tells sweep.now.edges.now sweep.now.shape.now [] tally.old }
    ensures values { IfOk result (λ v. AreLeftValues sweep.now.edges.now sweep.now.shape.now bundles.now v.items) }
    ensures tally { IfOk result (λ v. Tells sweep.now.edges.now sweep.now.shape.now [] tally.new) }
{
    let mut values = Vec::new(sweep.alloc);
    values.push(false)?;
    'bundles: for i in 0..bundles.len() {
        let bundle = &bundles[bundles.len() - 1 - i];
        tally.add(sweep.edges, bundle.as_slice());
        values.push(tally.value())?;
    }
    take_all(sweep, tally, bundles);
    Ok(values)
}

// Takes all bundles' edges away.
fn take_all(sweep: &Sweep<'_>, tally: &mut Tally, bundles: &[Bundle])
    requires members { AreMembers sweep.now.edges.now bundles.now }
    requires tally { Tells sweep.now.edges.now sweep.now.shape.now (concat bundles.now) tally.old }
    ensures { Tells sweep.now.edges.now sweep.now.shape.now [] tally.new }
{
    'bundles: for i in 0..bundles.len() {
        tally.take(sweep.edges, bundles[i].as_slice());
    }
}
