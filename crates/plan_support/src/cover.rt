//! What lies below the runs of higher layers.
ghost use Rattle.std.specs.Prelude.{◌≡◌, ℕ, ◌≤◌, ◌++◌, min, length, sum_by, IfOk, OnOk, All, Err};
ghost use Rattle.layer_board.specs.Limits.{worker_limit};
ghost use Rattle.plan_support.specs.declared.cover_fault.CoverFault.TheVariants.{Runs};
ghost use Rattle.plan_support.specs.Rows.{AreRows};
ghost use Rattle.plan_support.specs.Lines.{IsCount, AreRowsOfLines, kept_row, kept_rows, greatest_count};
ghost use Rattle.plan_support.specs.Covers.{AreCovers, run_count, stretch_limit, AreTooMany};

use crate::cover_fault::CoverFault;
use crate::cover_rows::Covers;
use crate::heights::heights_of;
use crate::line::{Line, Want};
use crate::lines::work_lines;
use crate::lists::Lists;
use crate::rows::Rows;
use std::alloc::{AllocError, Global};
use std::thread::Threads;

const STRETCH_LIMIT: u64 = 10_000_000;

/// For each layer and each height the maximal stretches of whole points that lie on a run of that height in some higher
/// layer. Their number is judged before memory is taken for them. The workers draw lines from a board, in threads where
/// the runtime gives them, and the result is one for every number of workers.
///
/// The time is that of one look-up for each line and layer, and of sorting the runs of each row with what lies above.
pub fn covers<R: Threads + Sync>(
    rt: &R,
    alloc: Global,
    layers: &[Rows],
    workers: u32,
) -> Result<Covers, CoverFault>
    requires some { 1 ≤ workers }
    requires few { workers ≤ worker_limit }
    requires rows { All AreRows layers.now }
    ensures covers { IfOk result (AreCovers layers.now) }
    ensures rows { IfOk result (λ covers. All AreRows covers) }
    ensures within { IfOk result (λ covers. run_count covers ≤ stretch_limit) }
    ensures runs { (counted : ℕ) → result ≡ Err (Runs counted) → AreTooMany layers.now counted }
{
    let heights = heights_of(alloc, layers)?;
    let heights = heights.as_slice();
    let counted = counted(rt, alloc, layers, heights, workers)?;
    if counted > STRETCH_LIMIT {
        return Err(CoverFault::Runs(counted));
    }
    let lines = work_lines(rt, alloc, layers, heights, Want::Stretches, workers)?;
    Ok(gathered(alloc, heights, lines.as_slice(), layers.len())?)
}

// How many stretches there are on the lines at heights.
fn counted<R: Threads + Sync>(
    rt: &R,
    alloc: Global,
    layers: &[Rows],
    heights: &[i32],
    workers: u32,
) -> Result<u64, AllocError>
    requires some { 1 ≤ workers }
    requires few { workers ≤ worker_limit }
    requires rows { All AreRows layers.now }
    ensures { IfOk result (IsCount layers.now heights.now) }
{
    Ok(count_of(&work_lines(rt, alloc, layers, heights, Want::Count, workers)?))
}

// How many stretches lines have together.
fn count_of(lines: &[Line]) -> u64
    ensures { result ≡ min (sum_by (λ l. l.count) lines.now) greatest_count }
{
    let mut count: u64 = 0;
    'lines: for line in lines {
        count = count.saturating_add(line.count);
    }
    count
}

// The stretches of lines, layer by layer.
fn gathered(
    alloc: Global,
    heights: &[i32],
    lines: &[Line],
    layers: usize,
) -> Result<Covers, AllocError>
    requires { length heights.now ≡ length lines.now }
    ensures { IfOk result (AreRowsOfLines heights.now lines.now layers) }
{
    let mut out = Vec::new(alloc);
    'layers: for n in 0..layers {
        out.push(rows_of(alloc, heights, lines, n)?)?;
    }
    Ok(Covers::of_layers(out))
}

// Those of one layer: what a line has of the layers from the highest to the first, has this one's last but so many.
fn rows_of(alloc: Global, heights: &[i32], lines: &[Line], layer: usize) -> Result<Rows, AllocError>
    requires { length heights.now ≡ length lines.now }
    ensures { IfOk result (λ rows. rows ≡ kept_rows layer heights.now lines.now) }
{
    let mut rows = Rows::new(alloc);
    'lines: for i in 0..lines.len() {
        push_kept(&mut rows, heights[i], &lines[i].covers, layer)?;
    }
    rows.shrink_to_fit();
    Ok(rows)
}

fn push_kept(rows: &mut Rows, y: i32, covers: &Lists, layer: usize) -> Result<(), AllocError>
    ensures { OnOk result (rows.new ≡ rows.old ++ kept_row layer y covers.now) }
{
    if layer < covers.len() {
        rows.push(y, covers.get(covers.len() - 1 - layer))?;
    }
    Ok(())
}
