//! Places beside the flat edges of a height.
ghost use Rattle.std.specs.Prelude.{◌≡◌, true, None, All};
ghost use Rattle.slice_border.specs.Pieces.{IsLeft};
ghost use Rattle.slice_outlines.specs.Flats.{LiesAside};

use crate::flat::Flat;
use slice_border::{Stop, compare, whole_spot};

/// The first of some flat edges that lies neither to the left of a place nor to its right.
pub(crate) fn in_way(flats: &[Flat], s: &Stop) -> Option<Flat>
    ensures { result ≡ None → All (LiesAside s.now.spot.at s.now.spot) flats.now }
{
    'flats: for e in flats {
        if !is_aside(e, s) {
            return Some(*e);
        }
    }
    None
}

fn is_aside(e: &Flat, s: &Stop) -> bool
    ensures { result ≡ true → LiesAside s.now.spot.at s.now.spot e.now }
{
    is_left(s, &whole_spot(e.left, &s.spot.at)) || is_left(&whole_spot(e.right, &s.spot.at), s)
}

fn is_left(s: &Stop, t: &Stop) -> bool
    ensures { result ≡ true → IsLeft s.now.spot t.now.spot }
{
    compare(s, t).is_lt()
}
