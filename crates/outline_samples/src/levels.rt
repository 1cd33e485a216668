//! Edges that are far apart are hardly compared.
ghost use Rattle.std.specs.Prelude.{◌<◌, IfOk, All};
ghost use Rattle.scad_geom.specs.Limits.{coordinate_limit};
ghost use Rattle.scad_geom.specs.Within.{IsWithin, IsEdgeWithin};

use crate::cases::expect;
use scad_geom::{Edge, LeafEdge, Pt};
use slice_events::levels_counted;
use std::alloc::{AllocError, Global};

// A corner of a square of 400 a side, by its turn round the square from the lower left one. The squares stand one above
// another, 100 apart.
fn corner(square: u16, turn: u16) -> Pt
    requires { square < 2000 }
    ensures { IsWithin coordinate_limit result }
{
    let low = 500 * i32::from(square);
    match turn % 4 {
        0 => Pt { x: 0, y: low },
        1 => Pt { x: 400, y: low },
        2 => Pt {
            x: 400,
            y: low + 400,
        },
        _ => Pt { x: 0, y: low + 400 },
    }
}

// The sides of two thousand squares.
fn sides_of_squares(alloc: Global) -> Result<Vec<LeafEdge>, AllocError>
    ensures { IfOk result (λ v. All (λ e. IsEdgeWithin coordinate_limit e.edge) v.items) }
{
    let mut edges = Vec::new(alloc);
    'sides: for side in 0..8000u16 {
        let a = corner(side / 4, side);
        let b = corner(side / 4, side + 1);
        let edge = Edge { a, b };
        edges.push(LeafEdge { leaf: 0, edge })?;
    }
    Ok(edges)
}

// All pairs of their edges are 31,996,000.
#[test]
fn edges_of_squares_apart_are_hardly_compared(rt: HostRuntime) {
    let edges = sides_of_squares(rt.alloc()).expect(&rt, "edges");
    expect(&rt, edges.len() == 8000, "the sides of all squares");
    let mut tests = 0;
    let found = levels_counted(rt.alloc(), &edges, &mut tests).expect(&rt, "levels");
    let are_few = found.len() == 4000 && tests <= 1_000_000;
    expect(&rt, are_few, "4,000 heights by few comparisons");
}
