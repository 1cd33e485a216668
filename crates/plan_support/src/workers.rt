//! What several workers do of lines, as one.
ghost use Rattle.std.specs.Prelude.{◌<◌, ◌≤◌, length, IfOk, All, vec_len};
ghost use Rattle.std.specs.Thread.{IsSync};
ghost use Rattle.layer_board.specs.Calls.{layers_of, IsFresh};
ghost use Rattle.plan_support.specs.Rows.{AreRows};
ghost use Rattle.plan_support.specs.Shares.{IsPool};

use crate::line::{Line, Want};
use crate::rows::Rows;
use crate::worker::share;
use layer_board::{Board, Pass, Share, together};
use std::alloc::{AllocError, Global};
use std::thread::{Threads, join};

/// The passes of workers, and what their work is for.
#[derive(Drop)]
pub(crate) struct Crew {
    pub(crate) passes: Vec<Pass>,
    pub(crate) want: Want,
}

/// What a crew does of the lines at heights, in threads where the runtime gives them.
pub(crate) fn pool<R: Threads + Sync>(
    rt: &R,
    alloc: Global,
    board: &Board,
    crew: Crew,
    layers: &[Rows],
    heights: &[i32],
) -> Result<Share<Line>, AllocError>
    requires some { 0 < vec_len crew.passes }
    requires fresh { All (IsFresh board.now) crew.passes.items }
    requires rows { All AreRows layers.now }
    requires lines { layers_of board.now ≤ length heights.now }

    ensures { IfOk result (IsPool board.now layers.now heights.now crew.want (vec_len crew.passes)) }
{
    let Crew { passes, want } = crew;
    let mut low = passes;
    if low.len() == 1 {
        let Some(pass) = low.pop() else {
            unreachable!()
        };
        return share(alloc, board, pass, layers, heights, want);
    }
    let high = low.split_off(low.len() / 2)?;
    let low = Crew { passes: low, want };
    let high = Crew { passes: high, want };
    let (a, b) = join(
        rt,
        move || -> Result<Share<Line>, AllocError>
            requires { IsSync R.row × (0 < vec_len low.passes) × All (IsFresh board.now) low.passes.items
                × All AreRows layers.now × (layers_of board.now ≤ length heights.now) }
            ensures { IfOk result (IsPool board.entry.now layers.entry.now heights.entry.now low.want
                (vec_len low.passes)) }
        { pool(rt, alloc, board, low, layers, heights) },
        move || -> Result<Share<Line>, AllocError>
            requires { IsSync R.row × (0 < vec_len high.passes) × All (IsFresh board.now) high.passes.items
                × All AreRows layers.now × (layers_of board.now ≤ length heights.now) }
            ensures { IfOk result (IsPool board.entry.now layers.entry.now heights.entry.now high.want
                (vec_len high.passes)) }
        { pool(rt, alloc, board, high, layers, heights) },
    );
    together(board, a?, b?)
}
