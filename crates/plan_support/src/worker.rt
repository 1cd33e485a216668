//! One worker's part of lines.
ghost use Rattle.std.specs.Prelude.{◌≡◌, ◌<◌, ◌≤◌, false, length, IfOk, All};
ghost use Rattle.layer_board.specs.Calls.{view, layers_of, IsOf};
ghost use Rattle.layer_board.specs.Events.{IsEmpty};
ghost use Rattle.plan_support.specs.Rows.{AreRows};
ghost use Rattle.plan_support.specs.Shares.{IsOwnLine, IsShare};

use crate::line::{Line, Want};
use crate::line_work::work_line;
use crate::rows::Rows;
use layer_board::{Board, Claim, Pass, Share};
use std::alloc::{AllocError, Global};

/// One worker's part: draws lines from the board until the end is told, and works them.
pub(crate) fn share(
    alloc: Global,
    board: &Board,
    pass: Pass,
    layers: &[Rows],
    heights: &[i32],
    want: Want,
) -> Result<Share<Line>, AllocError>
    requires of { IsOf board.now pass }
    requires empty { IsEmpty (view pass) }
    requires ended { (view pass).ended ≡ false }
    requires rows { All AreRows layers.now }
    requires lines { layers_of board.now ≤ length heights.now }

    ensures share { IfOk result (IsShare board.now layers.now heights.now want) }
    ensures members { IfOk result (λ s. (view s.pass).members ≡ (view pass).members) }
{
    let mut pass = pass;
    let mut done = Vec::new(alloc);
    'lines: while let Claim::Layer(n) = board.claim(&mut pass) {
        let line = own_line(alloc, layers, heights, want, n)?;
        board.finish(&mut pass, n);
        done.push(line)?;
    }
    Ok(Share { pass, done })
}

// The work on the line of a number.
fn own_line(
    alloc: Global,
    layers: &[Rows],
    heights: &[i32],
    want: Want,
    n: u32,
) -> Result<Line, AllocError>
    requires rows { All AreRows layers.now }
    requires there { n < length heights.now }

    ensures number { IfOk result (λ l. l.number ≡ n) }
    ensures line { IfOk result (IsOwnLine layers.now heights.now want) }
{
    work_line(alloc, layers, n, heights[n as usize], want)
}
