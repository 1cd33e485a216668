//! One worker's part of a round.
ghost use Rattle.std.specs.Prelude.{◌≡◌, ◌+◌, ◌<◌, ◌≤◌, false, Some, IfOk};
ghost use Rattle.layer_board.specs.Events.{IsEmpty};
ghost use Rattle.layer_board.specs.Calls.{view, layers_of, IsOf};
ghost use Rattle.slice_work.specs.Part.{Part, layer_limit};
ghost use Rattle.slice_work.specs.Shares.{IsShare, AreDrawnOf, SkipsAbove, settled};

use crate::layer::{Drawn, LayerEnd};
use crate::layer_work::LayerWork;
use layer_board::{Board, Claim, Pass, Share};
use std::alloc::{AllocError, Global};

/// One worker's part of a round whose layers start at `first`: draws layers from the board until the end is told,
/// skips those above a failed one, and works the others.
pub fn share<W: LayerWork>(
    alloc: Global,
    board: &Board,
    pass: Pass,
    first: u32,
    work: &W,
) -> Result<Share<Drawn>, AllocError>
    requires of { IsOf board.now pass }
    requires empty { IsEmpty (view pass) }
    requires ended { (view pass).ended ≡ false }
    requires within { first + layers_of board.now ≤ layer_limit }

    ensures share { IfOk result (IsShare board.now first) }
    ensures drawn { IfOk result (λ s. (part : Part) → W.draws work.now part → AreDrawnOf part s.done.items) }
    ensures members { IfOk result (λ s. (view s.pass).members ≡ (view pass).members) }
    ensures skips { IfOk result (λ s. SkipsAbove (view s.pass)) }
{
    let mut pass = pass;
    let mut done = Vec::new(alloc);
    'layers: while let Claim::Layer(n) = board.claim(&mut pass) {
        if board.look(&mut pass, n) {
            continue;
        }
        let layer = first + n;
        let end = work.draw(alloc, layer)?;
        settle(board, &mut pass, n, &end);
        done.push(Drawn { layer, end })?;
    }
    Ok(Share { pass, done })
}

// The pending layer is finished, or failed where it passes a budget.
fn settle(board: &Board, pass: &mut Pass, n: u32, end: &LayerEnd)
    requires of { IsOf board.now pass.old }
    requires pending { (view pass.old).pending ≡ Some n }

    ensures of { IsOf board.now pass.new }
    ensures settled { view pass.new ≡ settled end.now (view pass.old) }
{
    match end {
        LayerEnd::Made(..) => board.finish(pass, n),
        LayerEnd::Over(_) => board.fail(pass, n),
    }
}
