//! Pieces with rounded ends.
ghost use Rattle.std.specs.Prelude.{◌≡◌, IfOk, All};
ghost use Rattle.scad_geom.specs.Limits.{coordinate_limit};
ghost use Rattle.scad_geom.specs.Within.{IsEdgeWithin};
ghost use Rattle.scad_geom.specs.Segment.{segments};
ghost use Rattle.scad_geom.specs.Balance.{IsBalanced};
ghost use Rattle.winding_laws.specs.Edges.{rounded_edge};
ghost use Rattle.slice_pieces.specs.Pieces.{way_of, IsPieceWithin, ArePiecesBalanced};
ghost use Rattle.slice_pieces.specs.Rounding.{rounded_edges};

use scad_geom::Edge;
use slice_pieces::{Piece, has_length, rounded};
use std::alloc::{AllocError, Global};

/// The edges of pieces: both ends of each are rounded to the nearest whole point, halves down, and those whose ends then
/// coincide are left out. Where as many pieces start at each point as end there, so do the edges.
pub fn round(alloc: Global, pieces: &[Piece]) -> Result<Vec<Edge>, AllocError>
    requires { All (IsPieceWithin coordinate_limit) pieces.now }
    ensures edges { IfOk result (λ v. v.items ≡ rounded_edges pieces.now) }
    ensures within { IfOk result (λ v. All (IsEdgeWithin coordinate_limit) v.items) }
    ensures balanced { IfOk result (λ v. ArePiecesBalanced pieces.now → IsBalanced (segments v.items)) }
{
    let mut edges = Vec::new(alloc);
    'pieces: for piece in pieces {
        let edge = rounded_edge(piece);
        if has_length(&edge) {
            edges.push(edge)?;
        }
    }
    Ok(edges)
}

fn rounded_edge(piece: &Piece) -> Edge
    requires { IsPieceWithin coordinate_limit piece.now }
    ensures value { result ≡ rounded_edge (way_of piece.now) }
    ensures within { IsEdgeWithin coordinate_limit result }
{
    Edge {
        a: rounded(&piece.from),
        b: rounded(&piece.to),
    }
}
