//! The cells of each leaf, from its last to its first.
ghost use Rattle.std.specs.Prelude.{◌≡◌, ◌<◌, ◌^◌, map, length};
ghost use Rattle.slice_held.specs.Cells.{bare, AreSound, AreSet};
ghost use Rattle.slice_held.specs.Chain.{AreChained, Enters};

use crate::cell::Cell;
use crate::leaf_cells::put;

/// Puts all cells of a leaf in or out.
pub(crate) fn set_leaf(
    cells: &mut Vec<Cell>,
    lasts: &[usize],
    earlier: &[usize],
    leaf: usize,
    inside: bool,
)
    requires few { length cells.old.items < 2 ^ 63 }
    requires sound { AreSound cells.old.items }
    requires chained { AreChained cells.old.items lasts.now earlier.now }
    requires there { leaf < length lasts.now }
    ensures sound { AreSound cells.new.items }
    ensures bare { map bare cells.new.items ≡ map bare cells.old.items }
    ensures set { AreSet leaf inside cells.old.items cells.new.items }
{
    let mut place = lasts[leaf];
    'places: while place > 0 {
        put(cells, place - 1, inside);
        place = earlier[place - 1];
    }
}

/// Enters the number, plus one, of a further cell with a leaf's number, plus one, and returns that of the leaf's last
/// cell before. An operation and a leaf past the list are not entered.
pub(crate) fn enter(lasts: &mut Vec<usize>, leaf: usize, number: usize) -> usize
    ensures { Enters leaf number result lasts.old.items lasts.new.items }
{
    if leaf > 0 && leaf <= lasts.len() {
        let before = lasts[leaf - 1];
        lasts[leaf - 1] = number;
        before
    } else {
        0
    }
}
