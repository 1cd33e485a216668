//! The piece between two spots.
ghost use Rattle.std.specs.Prelude.{◌≡◌, ◌++◌, OnOk};
ghost use Rattle.slice_border.specs.Pieces.{piece_between};

use slice_pieces::{Piece, Spot};
use std::alloc::AllocError;

/// The piece between two spots, where the values on its left and on its right differ, with the inside on its left.
pub(crate) fn push_between(
    out: &mut Vec<Piece>,
    left: bool,
    right: bool,
    s: &Spot,
    t: &Spot,
    name: u32,
) -> Result<(), AllocError>
    ensures { OnOk result (out.new.items ≡ out.old.items ++ piece_between left right s.now t.now name) }
{
    if left == right {
        return Ok(());
    }
    let (from, to) = if left { (*s, *t) } else { (*t, *s) };
    out.push(Piece {
        from,
        to,
        edge: name,
    })?;
    Ok(())
}
