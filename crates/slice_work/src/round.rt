//! A round of layers.
ghost use Rattle.std.specs.Prelude.{◌+◌, ◌<◌, ◌≤◌, IfOk};
ghost use Rattle.layer_board.specs.Limits.{worker_limit};
ghost use Rattle.slice_work.specs.Part.{Part, layer_limit};
ghost use Rattle.slice_work.specs.Shares.{AreDrawnOf, AreWithin};
ghost use Rattle.slice_work.specs.Rounds.{IsRound, round_limit};

use crate::layer::Drawn;
use crate::layer_work::LayerWork;
use crate::workers::pool;
use layer_board::{Board, Share};
use std::alloc::{AllocError, Global};
use std::thread::Threads;

/// The most layers of a round.
pub const ROUND_LIMIT: u32 = 64;

/// So many layers from the first one on, and what those ended with that weren't skipped. The least number in the
/// round of a layer that passes a budget is their number where none does.
#[derive(Drop)]
pub struct Round {
    pub first: u32,
    pub count: u32,
    pub least: u32,
    pub done: Vec<Drawn>,
}

/// Works so many layers from the first one on, by so many workers, over a board of their own.
pub fn work_round<R: Threads + Sync, W: LayerWork>(
    rt: &R,
    alloc: Global,
    first: u32,
    count: u32,
    workers: u32,
    work: &W,
) -> Result<Round, AllocError>
    requires some { 1 ≤ workers }
    requires few { workers ≤ worker_limit }
    requires size { count ≤ round_limit }
    requires within { first + count ≤ layer_limit }

    ensures round { IfOk result (IsRound first count) }
    ensures drawn { IfOk result (λ r. (part : Part) → W.draws work.now part → AreDrawnOf part r.done.items) }
    ensures within { IfOk result (λ r. AreWithin r.done.items) }
{
    let (board, passes) = Board::new(alloc, count, workers)?;
    let Share { pass, done } = pool(rt, alloc, &board, passes, first, work)?;
    let least = board.close(pass).least;
    Ok(Round {
        first,
        count,
        least,
        done,
    })
}
