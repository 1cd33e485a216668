//! What several workers do of a round, as one.
ghost use Rattle.std.specs.Prelude.{◌+◌, ◌<◌, ◌≤◌, IfOk, All, vec_len};
ghost use Rattle.std.specs.Thread.{IsSync};
ghost use Rattle.layer_board.specs.Calls.{layers_of, IsFresh};
ghost use Rattle.slice_work.specs.Part.{Part, layer_limit};
ghost use Rattle.slice_work.specs.Shares.{AreDrawnOf};
ghost use Rattle.slice_work.specs.Pools.{IsPool};

use crate::layer::Drawn;
use crate::layer_work::LayerWork;
use crate::worker::share;
use layer_board::{Board, Pass, Share, together};
use std::alloc::{AllocError, Global};
use std::thread::{Threads, join};

/// What the workers of these passes do of a round, in threads where the runtime gives them.
pub fn pool<R: Threads + Sync, W: LayerWork>(
    rt: &R,
    alloc: Global,
    board: &Board,
    passes: Vec<Pass>,
    first: u32,
    work: &W,
) -> Result<Share<Drawn>, AllocError>
    requires some { 0 < vec_len passes }
    requires fresh { All (IsFresh board.now) passes.items }
    requires within { first + layers_of board.now ≤ layer_limit }

    ensures pool { IfOk result (IsPool board.now first (vec_len passes)) }
    ensures drawn { IfOk result (λ s. (part : Part) → W.draws work.now part → AreDrawnOf part s.done.items) }
{
    let mut low = passes;
    if low.len() == 1 {
        let Some(pass) = low.pop() else {
            unreachable!()
        };
        return share(alloc, board, pass, first, work);
    }
    let high = low.split_off(low.len() / 2)?;
    let (a, b) = join(
        rt,
        move || -> Result<Share<Drawn>, AllocError>
            requires { IsSync R.row × IsSync W.row × (0 < vec_len low)
                × All (IsFresh board.now) low.items × (first + layers_of board.now ≤ layer_limit) }
            ensures { IfOk result (λ s. IsPool board.entry.now first (vec_len low) s
                × ((part : Part) → W.draws work.entry.now part → AreDrawnOf part s.done.items)) }
        { pool(rt, alloc, board, low, first, work) },
        move || -> Result<Share<Drawn>, AllocError>
            requires { IsSync R.row × IsSync W.row × (0 < vec_len high)
                × All (IsFresh board.now) high.items × (first + layers_of board.now ≤ layer_limit) }
            ensures { IfOk result (λ s. IsPool board.entry.now first (vec_len high) s
                × ((part : Part) → W.draws work.entry.now part → AreDrawnOf part s.done.items)) }
        { pool(rt, alloc, board, high, first, work) },
    );
    together(board, a?, b?)
}
