//! Pieces of one name become one where they alone meet.
ghost use Rattle.std.specs.Prelude.{◌<◌, ◌+◌, true, false, length, IfOk, IfSome, IfNone, OnSome, All, ◌↔◌, IsTrue};
ghost use Rattle.scad_geom.specs.Limits.{coordinate_limit};
ghost use Rattle.slice_pieces.specs.Pieces.{HaveOneLevel, IsPieceWithin, ArePiecesBalanced};
ghost use Rattle.slice_pieces.specs.Merging.{AreMerged};
ghost use Rattle.slice_pieces.specs.Joining.{GoesOn, IsPassedOnce, IsStuck};
ghost use Rattle.slice_snap.specs.Joints.{IsComparable, IsNext};
ghost use Rattle.slice_snap.specs.Chains.{AreChained, piece_at};
ghost use Rattle.slice_snap.specs.EndOrder.{AreInOrder};

use crate::alone::alone;
use crate::chains::Chains;
use crate::end::End;
use crate::end_order::{end_at, ends_in_order};
use crate::spots::is_same_spot;
use slice_pieces::Piece;
use std::alloc::{AllocError, Global};

/// The pieces with two of one name joined, the first ending where the second starts, as long as there are such two and no
/// other piece starts or ends at that point; in any order. As many still start at each point as end there.
pub fn merge(alloc: Global, pieces: &[Piece]) -> Result<Vec<Piece>, AllocError>
    requires within { All (IsPieceWithin coordinate_limit) pieces.now }
    requires levels { HaveOneLevel pieces.now }
    ensures merged { IfOk result (λ v. AreMerged pieces.now v.items) }
    ensures within { IfOk result (λ v. All (IsPieceWithin coordinate_limit) v.items) }
    ensures balanced { IfOk result (λ v. ArePiecesBalanced pieces.now → ArePiecesBalanced v.items) }
{
    let starts = ends_in_order(alloc, pieces, true)?;
    let ends = ends_in_order(alloc, pieces, false)?;
    let mut chains = Chains::new(alloc, pieces)?;
    'pieces: for place in 0..pieces.len() {
        go_on(&mut chains, pieces, &starts, &ends, place);
    }
    chains.wholes(alloc)
}

// Joins the chain that the piece at a place ends to the one that goes on from it, where these two alone meet. A chain that
// would go on with itself is closed, and its end stays.
fn go_on(chains: &mut Chains, pieces: &[Piece], starts: &[End], ends: &[End], place: usize)
    requires within { All (IsPieceWithin coordinate_limit) pieces.now }
    requires levels { HaveOneLevel pieces.now }
    requires starts { AreInOrder true pieces.now starts.now }
    requires ends { AreInOrder false pieces.now ends.now }
    requires inside { place < length pieces.now }
    requires so_far { AreChained pieces.now chains.old place }
    ensures { AreChained pieces.now chains.new (place + 1) }
{
    if let Some(next) = joint(pieces, starts, ends, place) {
        let first = chains.first_of(place);
        if first != next && !chains.is_gone(next) {
            chains.link(first, next);
        }
    }
}

// The place of the piece that goes on from another, where these two alone meet.
fn joint(pieces: &[Piece], starts: &[End], ends: &[End], place: usize) -> Option<usize>
    requires within { All (IsPieceWithin coordinate_limit) pieces.now }
    requires starts { AreInOrder true pieces.now starts.now }
    requires ends { AreInOrder false pieces.now ends.now }
    requires inside { place < length pieces.now }
    requires comparable { All (IsComparable (piece_at pieces.now place).to) pieces.now }
    ensures some { IfSome result (λ j. IsNext (piece_at pieces.now place) pieces.now j) }
    ensures passed { OnSome result (IsPassedOnce pieces.now (piece_at pieces.now place).to) }
    ensures none { IfNone result (IsStuck pieces.now (piece_at pieces.now place)) }
{
    let end = end_at(pieces, false, place);
    alone(ends, &end)?;
    let next = alone(starts, &end)?;
    if goes_on_at(pieces, place, next) {
        Some(next)
    } else {
        None
    }
}

fn goes_on_at(pieces: &[Piece], place: usize, next: usize) -> bool
    requires within { All (IsPieceWithin coordinate_limit) pieces.now }
    requires inside { place < length pieces.now }
    requires there { next < length pieces.now }
    requires comparable { All (IsComparable (piece_at pieces.now place).to) pieces.now }
    ensures { IsTrue result ↔ GoesOn (piece_at pieces.now place) (piece_at pieces.now next) }
{
    goes_on(&pieces[place], &pieces[next])
}

fn goes_on(q: &Piece, r: &Piece) -> bool
    requires q { IsPieceWithin coordinate_limit q.now }
    requires comparable { IsComparable q.now.to r.now }
    ensures { IsTrue result ↔ GoesOn q.now r.now }
{
    q.edge == r.edge && is_same_spot(&q.to, &r.from) && !is_same_spot(&q.to, &r.to)
}
