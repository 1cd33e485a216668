//! The layers of a round by their number.
ghost use Rattle.std.specs.Prelude.{◌≡◌, ◌+◌, ◌<◌, Ok, Err, All};
ghost use Rattle.scad_geom.specs.Limits.{coordinate_limit};
ghost use Rattle.scad_geom.specs.Within.{IsWithin};
ghost use Rattle.slice_work.specs.Part.{Part};
ghost use Rattle.slice_work.specs.Shares.{AreDrawnOf, AreWithin};
ghost use Rattle.slice_work.specs.Rounds.{IsWhole};
ghost use Rattle.slice_work.specs.Script.{laid_out};

use crate::laid_layer::LaidLayer;
use crate::layer::LayerEnd;
use crate::round::Round;
use plan_layer::LayerPlan;
use scad_fault::Budget;
use scad_geom::Loop;

/// A layer below the least that passes a budget.
pub fn layout_of(round: &Round, n: u32) -> LaidLayer<'_>
    requires whole { IsWhole round.now }
    requires made { n < round.now.least }

    ensures number { result.number ≡ round.now.first + n }
    ensures layout { (part : Part) → AreDrawnOf part round.now.done.items
        → part (round.now.first + n) ≡ Ok (laid_out result) }
    ensures within { AreWithin round.now.done.items → All (λ l. All (IsWithin coordinate_limit) l) result.loops.now }
{
    let number = round.first + n;
    'layers: for drawn in &round.done {
        if drawn.layer != number {
            continue;
        }
        match &drawn.end {
            LayerEnd::Made(loops, plan) => return laid(number, loops, plan),
            LayerEnd::Over(_) => {}
        }
    }
    unreachable!()
}

// The layer of a number with these outlines and this plan.
fn laid<'a>(number: u32, loops: &'a [Loop], plan: &'a LayerPlan) -> LaidLayer<'a>
    ensures number { result.number ≡ number }
    ensures layout { laid_out result ≡ record {
      outlines = loops.now;
      paths = plan.now.paths.items;
      runs = plan.now.runs;
      supports = plan.now.supports.items;
    } }
{
    LaidLayer {
        number,
        loops,
        paths: plan.paths.as_slice(),
        runs: plan.runs,
        supports: plan.supports.as_slice(),
    }
}

/// The budget that the least such layer passes, where the round has one.
pub fn budget_of(round: &Round) -> Budget
    requires whole { IsWhole round.now }
    requires over { round.now.least < round.now.count }

    ensures { (part : Part) → AreDrawnOf part round.now.done.items
        → part (round.now.first + round.now.least) ≡ Err result }
{
    let least = round.first + round.least;
    'layers: for drawn in &round.done {
        if drawn.layer != least {
            continue;
        }
        match &drawn.end {
            LayerEnd::Made(..) => {}
            LayerEnd::Over(budget) => return *budget,
        }
    }
    unreachable!()
}
