//! Cells of leaves, put in and out, and cells that are added.
ghost use Rattle.std.specs.Prelude.{◌≡◌, ◌≢◌, ◌<◌, ◌^◌, ◌++◌, [], ◌∷◌, map, length, OnOk};
ghost use Rattle.slice_held.specs.Cells.{cell_at, bare, counting, holds, IsUnchangedBut, AreSound, AreOut, HasPlaceUnder};

use crate::cell::Cell;
use crate::counts::{cell_at, is_told, moved, recount};
use std::alloc::AllocError;

/// Puts the cell of a leaf in or out.
pub(crate) fn put(cells: &mut Vec<Cell>, at: usize, inside: bool)
    requires there { at < length cells.old.items }
    requires few { length cells.old.items < 2 ^ 63 }
    requires sound { AreSound cells.old.items }
    requires leaf { (cell_at cells.old.items at).leaf ≢ 0 }
    ensures sound { AreSound cells.new.items }
    ensures bare { map bare cells.new.items ≡ map bare cells.old.items }
    ensures own { holds (cell_at cells.new.items at) ≡ inside }
    ensures others { IsUnchangedBut at cells.old.items cells.new.items }
{
    let cell = cell_at(cells, at);
    recount(cells, at, count_of(&cell, inside));
}

// The count of a leaf's cell that is put in or out.
fn count_of(cell: &Cell, inside: bool) -> usize
    ensures { holds (counting result cell.now) ≡ inside }
{
    if cell.any == inside { 1 } else { 0 }
}

/// Adds a cell that counts nothing yet.
pub(crate) fn push_cell(cells: &mut Vec<Cell>, cell: Cell) -> Result<(), AllocError>
    requires sound { AreSound cells.old.items }
    requires out { AreOut cells.old.items }
    requires place { HasPlaceUnder cells.old.items cell.parent }
    requires blank { cell.count ≡ 0 }
    ensures sound { OnOk result (AreSound cells.new.items) }
    ensures out { OnOk result (AreOut cells.new.items) }
    ensures bare { OnOk result (map bare cells.new.items ≡ map bare cells.old.items ++ (cell ∷ [])) }
{
    cells.push(cell)?;
    if cell.parent > 0 && is_told(&cell) {
        let up = cell.parent - 1;
        let above = cell_at(cells, up);
        recount(cells, up, moved(&above, true));
    }
    Ok(())
}
