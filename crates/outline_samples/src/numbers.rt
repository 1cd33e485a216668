//! What is found, as one number, which independent programs make too.

use scad_geom::{Loop, Pt};
use slice_pieces::{Piece, Spot};

/// A number by what came before and a part that follows.
pub(crate) fn number_with(before: i64, part: i64) -> i64 {
    before
        .wrapping_mul(10_007)
        .wrapping_add(part)
        .rem_euclid(1_000_000_007)
}

/// With how many points there are, and the x and y of each.
pub(crate) fn number_with_points(before: i64, points: &[Pt]) -> i64 {
    let mut number = number_with(before, points.len() as i64);
    for p in points {
        number = number_with(number_with(number, i64::from(p.x)), i64::from(p.y));
    }
    number
}

/// With the points of each loop.
pub(crate) fn number_with_loops(before: i64, loops: &[Loop]) -> i64 {
    let mut number = number_with(before, loops.len() as i64);
    for outline in loops {
        number = number_with_points(number, outline.as_slice());
    }
    number
}

// x / d in thousandths, rounded down.
fn thousandths(x: i128, d: i128) -> i64 {
    let whole = x.wrapping_mul(1000).checked_div_euclid(d).unwrap_or(0);
    i64::try_from(whole).unwrap_or(0)
}

fn number_with_spot(before: i64, spot: &Spot) -> i64 {
    let d = spot.at.d.wrapping_mul(i128::from(spot.run));
    let number = number_with(before, thousandths(spot.x, d));
    number_with(number, thousandths(spot.at.n, spot.at.d))
}

/// With the start, the end and the name of each piece.
pub(crate) fn number_with_pieces(before: i64, pieces: &[Piece]) -> i64 {
    let mut number = number_with(before, pieces.len() as i64);
    for piece in pieces {
        number = number_with_spot(number_with_spot(number, &piece.from), &piece.to);
        number = number_with(number, i64::from(piece.edge));
    }
    number
}
