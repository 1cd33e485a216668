//! The work on all lines.
ghost use Rattle.std.specs.Prelude.{◌≤◌, length, map, IfOk, All};
ghost use Rattle.std.specs.List.Sorted.{IsPermutation, IsNonDecreasingBy};
ghost use Rattle.layer_board.specs.Limits.{worker_limit};
ghost use Rattle.layer_board.specs.Numbers.{below, Rearranged};
ghost use Rattle.plan_support.specs.Rows.{AreRows};
ghost use Rattle.plan_support.specs.Lines.{HasLines};
ghost use Rattle.plan_support.specs.Shares.{IsOwnLine};

use crate::line::{Line, Want};
use crate::rows::Rows;
use crate::workers::{Crew, pool};
use layer_board::{Board, Share};
use std::alloc::{AllocError, Global};
use std::thread::Threads;

/// Works the line at each of the heights, by so many workers.
pub(crate) fn work_lines<R: Threads + Sync>(
    rt: &R,
    alloc: Global,
    layers: &[Rows],
    heights: &[i32],
    want: Want,
    workers: u32,
) -> Result<Vec<Line>, AllocError>
    requires some { 1 ≤ workers }
    requires few { workers ≤ worker_limit }
    requires rows { All AreRows layers.now }
    ensures { IfOk result (λ v. HasLines layers.now heights.now want v.items) }
{
    let mut lines = drawn(rt, alloc, layers, heights, want, workers)?;
    sort(&mut lines);
    Ok(lines)
}

// All lines, each once, in the order in which the workers' lists are joined. Where they are 2^32 or more there is too
// little memory.
fn drawn<R: Threads + Sync>(
    rt: &R,
    alloc: Global,
    layers: &[Rows],
    heights: &[i32],
    want: Want,
    workers: u32,
) -> Result<Vec<Line>, AllocError>
    requires some { 1 ≤ workers }
    requires few { workers ≤ worker_limit }
    requires rows { All AreRows layers.now }

    ensures numbers { IfOk result (λ v. Rearranged (map (λ l. l.number) v.items) (below (length heights.now))) }
    ensures lines { IfOk result (λ v. All (IsOwnLine layers.now heights.now want) v.items) }
{
    let Ok(count) = u32::try_from(heights.len()) else {
        return Err(AllocError);
    };
    let (board, passes) = Board::new(alloc, count, workers)?;
    let crew = Crew { passes, want };
    let Share { pass, done } = pool(rt, alloc, &board, crew, layers, heights)?;
    board.close(pass);
    Ok(done)
}

fn sort(lines: &mut Vec<Line>)
    ensures permutation { IsPermutation lines.old.items lines.new.items }
    ensures order { IsNonDecreasingBy (λ l. l.number) lines.new.items }
{
    lines.sort_unstable_by_key(|line| line.number);
}
