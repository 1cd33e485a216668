//! The ends of pieces in order: those at one spot stand side by side.
ghost use Rattle.std.specs.Prelude.{◌≡◌, ◌<◌, length, IfOk, All};
ghost use Rattle.std.specs.List.Sorted.{IsPermutation, IsSorted};
ghost use Rattle.scad_geom.specs.Limits.{coordinate_limit};
ghost use Rattle.slice_pieces.specs.Spots.{IsSpotWithin};
ghost use Rattle.slice_pieces.specs.Pieces.{IsPieceWithin};
ghost use Rattle.slice_snap.specs.Chains.{piece_at};
ghost use Rattle.slice_snap.specs.EndOrder.{end_of, end_cmp, AreEndsOf, AreInOrder};

use crate::end::End;
use crate::spots::compare_spots;
use slice_pieces::{Piece, Spot};
use std::alloc::{AllocError, Global};
use std::cmp::Ordering;

/// The starts of pieces, or their ends, in order.
pub(crate) fn ends_in_order(
    alloc: Global,
    pieces: &[Piece],
    start: bool,
) -> Result<Vec<End>, AllocError>
    requires { All (IsPieceWithin coordinate_limit) pieces.now }
    ensures { IfOk result (λ v. AreInOrder start pieces.now v.items) }
{
    let mut ends = ends(alloc, pieces, start)?;
    sort(&mut ends);
    Ok(ends)
}

fn ends(alloc: Global, pieces: &[Piece], start: bool) -> Result<Vec<End>, AllocError>
    requires { All (IsPieceWithin coordinate_limit) pieces.now }
    ensures { IfOk result (λ v. AreEndsOf start pieces.now v.items) }
{
    let mut ends = Vec::new(alloc);
    'pieces: for place in 0..pieces.len() {
        ends.push(end_at(pieces, start, place))?;
    }
    Ok(ends)
}

pub(crate) fn end_at(pieces: &[Piece], start: bool, place: usize) -> End
    requires within { All (IsPieceWithin coordinate_limit) pieces.now }
    requires inside { place < length pieces.now }
    ensures spot { result.spot ≡ end_of start (piece_at pieces.now place) }
    ensures place { result.place ≡ place }
{
    let spot = end_of(&pieces[place], start);
    End { spot, place }
}

fn end_of(piece: &Piece, start: bool) -> Spot
    requires { IsPieceWithin coordinate_limit piece.now }
    ensures value { result ≡ end_of start piece.now }
    ensures within { IsSpotWithin coordinate_limit result }
{
    if start { piece.from } else { piece.to }
}

fn sort(ends: &mut Vec<End>)
    ensures permutation { IsPermutation ends.old.items ends.new.items }
    ensures sorted { IsSorted end_cmp ends.new.items }
{
    ends.sort_unstable_by(compare);
}

pub(crate) fn compare(e: &End, f: &End) -> Ordering
    ensures { result ≡ end_cmp e.now f.now }
{
    compare_spots(&e.spot, &f.spot)
}
