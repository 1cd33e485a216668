//! The rows of support lines of all layers of a part.
ghost use Rattle.std.specs.Prelude.{◌≡◌, ◌+◌, ◌≤◌, Err, IfOk, OnOk, All};
ghost use Rattle.layer_board.specs.Limits.{worker_limit};
ghost use Rattle.scad_fault.specs.declared.budget.Budget.{Budget};
ghost use Rattle.scad_geom.specs.Limits.{coordinate_limit};
ghost use Rattle.scad_geom.specs.Within.{IsWithin};
ghost use Rattle.plan_support.specs.Rows.{AreRows};
ghost use Rattle.slice_work.specs.declared.survey_fault.SurveyFault.TheVariants.{Over};
ghost use Rattle.slice_work.specs.Part.{Part, layer_limit};
ghost use Rattle.slice_work.specs.Shares.{AreDrawnOf, AreWithin};
ghost use Rattle.slice_work.specs.Rounds.{IsWhole};
ghost use Rattle.slice_work.specs.Survey.{AddsRows, AreSurveyed, IsLeastOver};

use crate::layer_work::LayerWork;
use crate::round::{ROUND_LIMIT, Round, work_round};
use crate::round_layers::{budget_of, layout_of};
use crate::survey_fault::SurveyFault;
use plan_support::{Rows, spans};
use scad_geom::Loop;
use std::alloc::{AllocError, Global};
use std::thread::Threads;

/// The rows of support lines of all layers' outlines, or the budget of the least layer that passes one.
///
/// The layers go in rounds of 64, as when they are written. Of each only its rows are kept.
pub fn survey<R: Threads + Sync, W: LayerWork>(
    rt: &R,
    alloc: Global,
    count: u32,
    work: &W,
    spacing: u32,
    workers: u32,
) -> Result<Vec<Rows>, SurveyFault>
    requires few { count ≤ layer_limit }
    requires some { 1 ≤ workers }
    requires most { workers ≤ worker_limit }
    requires spaced { 500 ≤ spacing }

    ensures rows { IfOk result (λ all. (part : Part) → W.draws work.now part
        → AreSurveyed part spacing count all.items) }
    ensures each { IfOk result (λ all. All AreRows all.items) }
    ensures over { (budget : Budget) → result ≡ Err (Over budget) → (part : Part) → W.draws work.now part
        → IsLeastOver part count budget }
{
    let mut all = Vec::new(alloc);
    let mut first = 0;
    'rounds: while first < count {
        let size = ROUND_LIMIT.min(count - first);
        let round = work_round(rt, alloc, first, size, workers, work)?;
        push_round(alloc, &mut all, &round, spacing)?;
        first += size;
    }
    Ok(all)
}

// Adds the rows of a round's layers, up to the first that passes a budget.
fn push_round(
    alloc: Global,
    all: &mut Vec<Rows>,
    round: &Round,
    spacing: u32,
) -> Result<(), SurveyFault>
    requires round { IsWhole round.now }
    requires within { AreWithin round.now.done.items }
    requires spaced { 500 ≤ spacing }
    requires each { All AreRows all.old.items }

    ensures rows { OnOk result ((part : Part) → AreDrawnOf part round.now.done.items
        → AreSurveyed part spacing round.now.first all.old.items
        → AreSurveyed part spacing (round.now.first + round.now.count) all.new.items) }
    ensures each { OnOk result (All AreRows all.new.items) }
    ensures over { (budget : Budget) → result ≡ Err (Over budget) → (part : Part)
        → AreDrawnOf part round.now.done.items → AreSurveyed part spacing round.now.first all.old.items
        → IsLeastOver part (round.now.first + round.now.count) budget }
{
    'layers: for n in 0..round.least {
        let layer = layout_of(round, n);
        push_rows(alloc, all, layer.loops, spacing)?;
    }
    if round.least < round.count {
        return Err(SurveyFault::Over(budget_of(round)));
    }
    Ok(())
}

// Adds the rows of a layer.
fn push_rows(
    alloc: Global,
    all: &mut Vec<Rows>,
    outlines: &[Loop],
    spacing: u32,
) -> Result<(), AllocError>
    requires within { All (λ l. All (IsWithin coordinate_limit) l) outlines.now }
    requires spaced { 500 ≤ spacing }

    ensures { OnOk result (AddsRows outlines.now spacing all.old.items all.new.items) }
{
    let rows = spans(alloc, outlines, spacing)?;
    all.push(rows)?;
    Ok(())
}
