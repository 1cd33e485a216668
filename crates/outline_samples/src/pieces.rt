//! Pieces merged, and opposite edges that cancel; the pieces were worked out by another program.
ghost use Rattle.std.specs.Prelude.{◌≡◌, pos, OnOk, IfOk, All};
ghost use Rattle.scad_geom.specs.Limits.{coordinate_limit};
ghost use Rattle.slice_pieces.specs.Spots.{IsSpotWithin};
ghost use Rattle.slice_pieces.specs.Pieces.{IsPieceWithin};

use crate::cases::expect;
use crate::numbers::number_with_pieces;
use scad_geom::{Edge, Level, Pt};
use slice_pieces::{Piece, Spot, cancel};
use slice_snap::merge;
use std::alloc::{AllocError, Global};

// A point at whole coordinates.
fn spot(x: u8, y: u8) -> Spot
    ensures within { IsSpotWithin coordinate_limit result }
    ensures whole { result.at.d ≡ pos 1 }
{
    Spot {
        at: Level {
            n: i128::from(y),
            d: 1,
        },
        x: i128::from(x),
        run: 1,
    }
}

fn push_piece(pieces: &mut Vec<Piece>, from: Spot, to: Spot, edge: u32) -> Result<(), AllocError>
    requires from { IsSpotWithin coordinate_limit from }
    requires to { IsSpotWithin coordinate_limit to }
    requires whole_from { from.at.d ≡ pos 1 }
    requires whole_to { to.at.d ≡ pos 1 }
    requires within { All (IsPieceWithin coordinate_limit) pieces.old.items }
    requires starts { All (λ q. q.from.at.d ≡ pos 1) pieces.old.items }
    requires ends { All (λ q. q.to.at.d ≡ pos 1) pieces.old.items }
    ensures within { OnOk result (All (IsPieceWithin coordinate_limit) pieces.new.items) }
    ensures starts { OnOk result (All (λ q. q.from.at.d ≡ pos 1) pieces.new.items) }
    ensures ends { OnOk result (All (λ q. q.to.at.d ≡ pos 1) pieces.new.items) }
{
    pieces.push(Piece { from, to, edge })?;
    Ok(())
}

fn digit(byte: u8) -> u8 {
    byte.wrapping_sub(b'0')
}

// A piece for each five digits: the x and y of its start and of its end, and its name.
fn pieces(alloc: Global, text: &str) -> Result<Vec<Piece>, AllocError>
    ensures within { IfOk result (λ v. All (IsPieceWithin coordinate_limit) v.items) }
    ensures starts { IfOk result (λ v. All (λ q. q.from.at.d ≡ pos 1) v.items) }
    ensures ends { IfOk result (λ v. All (λ q. q.to.at.d ≡ pos 1) v.items) }
{
    let mut pieces = Vec::new(alloc);
    'parts: for part in text.split(' ') {
        if let [ax, ay, bx, by, name] = part.as_bytes() {
            let from = spot(digit(*ax), digit(*ay));
            let to = spot(digit(*bx), digit(*by));
            push_piece(&mut pieces, from, to, u32::from(digit(*name)))?;
        }
    }
    Ok(pieces)
}

// Whether the first pieces are merged to the second ones.
fn are_merged(alloc: Global, text: &str, wanted: &str) -> Result<bool, AllocError> {
    let pieces_of_text = pieces(alloc, text)?;
    let merged = merge(alloc, &pieces_of_text)?;
    let wanted = pieces(alloc, wanted)?;
    Ok(number_with_pieces(0, &merged) == number_with_pieces(0, &wanted))
}

/// Pieces, and what they are merged to.
const MERGED: [(&str, &str); 12] = [
    ("00111 11221", "00221"),
    // Through three levels, in any order and direction.
    ("00110 11220 22330", "00330"),
    ("22330 00110 11220", "00330"),
    ("22110 33220 11000", "33000"),
    ("01110 11210 40414 21310", "01310 40414"),
    // Stopped by another piece that starts or ends at the point, or by another name.
    ("00110 11220 11302", "00110 11220 11302"),
    ("00110 11220 30111", "00110 11220 30111"),
    ("00110 11220 30110 11040", "00110 11220 30110 11040"),
    ("00111 11222", "00111 11222"),
    // Two that end at one point, two that start there.
    ("00110 22110", "00110 22110"),
    ("11000 11220", "11000 11220"),
    ("", ""),
];

#[test]
fn pieces_of_one_name_are_merged(rt: HostRuntime) {
    for &(text, wanted) in &MERGED {
        let are = are_merged(rt.alloc(), text, wanted).expect(&rt, "memory");
        expect(&rt, are, text);
    }
}

const THERE: Edge = Edge {
    a: Pt { x: 0, y: 0 },
    b: Pt { x: 3, y: 1 },
};

const BACK: Edge = Edge {
    a: Pt { x: 3, y: 1 },
    b: Pt { x: 0, y: 0 },
};

const ASIDE: Edge = Edge {
    a: Pt { x: 0, y: 3 },
    b: Pt { x: 1, y: 0 },
};

/// An edge of no length, which is its own opposite.
const POINT: Edge = Edge {
    a: Pt { x: 2, y: 2 },
    b: Pt { x: 2, y: 2 },
};

/// Edges, and those that are left of them. Equal edges stay, and of three in one direction against one two are left.
const CANCELLED: [(&[Edge], &[Edge]); 3] = [
    (&[THERE, BACK], &[]),
    (
        &[THERE, ASIDE, THERE, BACK, THERE, ASIDE],
        &[THERE, THERE, ASIDE, ASIDE],
    ),
    (&[POINT, POINT, POINT], &[POINT]),
];

#[test]
fn opposite_edges_cancel_one_for_one(rt: HostRuntime) {
    for &(edges, wanted) in &CANCELLED {
        let left = cancel(rt.alloc(), edges).expect(&rt, "memory");
        expect(&rt, left.as_slice() == wanted, "edges that are left");
    }
}
