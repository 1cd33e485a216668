//! Counts of operations, kept while one cell changes.
ghost use Rattle.std.specs.Prelude.{◌≡◌, ◌<◌, ◌^◌, ◌+◌, length, true, false};
ghost use Rattle.slice_held.specs.Cells.{cell_at, counting, moved, differ, holds, is_told, ParentsComeFirst, ParentsAreOperations, IsRightFor, AreCounted, Recounts};

use crate::cell::Cell;

/// Gives a cell its right count, and mends the counts of the operations above as far as something changes.
pub(crate) fn recount(cells: &mut Vec<Cell>, at: usize, count: usize)
    requires there { at < length cells.old.items }
    requires few { length cells.old.items < 2 ^ 63 }
    requires parents { ParentsComeFirst cells.old.items }
    requires operations { ParentsAreOperations cells.old.items }
    requires right { IsRightFor cells.old.items at (counting count (cell_at cells.old.items at)) }
    ensures counted { AreCounted cells.new.items }
    ensures rest { Recounts at (counting count (cell_at cells.old.items at)) cells.old.items cells.new.items }
{
    let cell = cell_at(cells, at);
    let next = counting(&cell, count);
    cells[at] = next;
    if is_changed(&cell, &next) && cell.parent > 0 {
        let up = cell.parent - 1;
        let above = cell_at(cells, up);
        recount(cells, up, moved(&above, is_told(&next)));
    }
}

fn counting(cell: &Cell, count: usize) -> Cell
    ensures { result ≡ counting count cell.now }
{
    Cell { count, ..*cell }
}

/// One more than a cell's count, or one less.
pub(crate) fn moved(cell: &Cell, up: bool) -> usize
    requires room { up ≡ true → cell.now.count + 1 < 2 ^ 64 }
    requires some { up ≡ false → 0 < cell.now.count }
    ensures { result ≡ (moved up cell.now).count }
{
    if up { cell.count + 1 } else { cell.count - 1 }
}

/// Whether a cell's operation counts it.
pub(crate) fn is_told(cell: &Cell) -> bool
    ensures { result ≡ is_told cell.now }
{
    holds(cell) == cell.raises
}

/// Whether a leaf or an operation holds.
pub(crate) fn holds(cell: &Cell) -> bool
    ensures { result ≡ holds cell.now }
{
    if cell.any {
        cell.count != 0
    } else {
        cell.count == 0
    }
}

// Whether a cell is told otherwise than another.
fn is_changed(cell: &Cell, next: &Cell) -> bool
    ensures { result ≡ differ (is_told cell.now) (is_told next.now) }
{
    if is_told(cell) {
        !is_told(next)
    } else {
        is_told(next)
    }
}

pub(crate) fn cell_at(cells: &[Cell], at: usize) -> Cell
    requires { at < length cells.now }
    ensures { result ≡ cell_at cells.now at }
{
    cells[at]
}
