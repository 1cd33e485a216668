//! What stands below higher layers of a tree, found before its first layer is written.
ghost use Rattle.std.specs.Prelude.{◌≡◌, ◌<◌, ◌≤◌, Err, IfOk};
ghost use Rattle.scad_fault.specs.declared.budget.Budget.{Budget};
ghost use Rattle.scad_tree.specs.View.{solid_of};
ghost use Rattle.slice_work.specs.declared.survey_fault.SurveyFault.TheVariants.{Over};
ghost use Rattle.slice_work.specs.declared.want.Want.TheVariants.{Plan};
ghost use Rattle.slice_work.specs.Part.{layer_limit};
ghost use Rattle.scad_slice.specs.Budgets.{layer_count};
ghost use Rattle.scad_slice.specs.Covers.{AreSurveyedOf, CoversFit, IsPassedByAll};

use crate::tree_work::work_on;
use crate::workpiece::Workpiece;
use plan_support::{CoverFault, Covers, Rows, covers};
use scad_fault::Budget;
use scad_io::Gate;
use slice_work::{SurveyFault, Want, survey};
use std::alloc::Global;
use std::thread::Threads;

/// What stands below higher layers, where a plan with supports is wanted of a tree that has so many layers.
///
/// The outlines of all layers are judged first, then the stretches; what passes a budget is answered, and no layer is
/// to be written.
pub fn covers_of<R: Threads + Sync, G: Gate>(
    rt: &R,
    alloc: Global,
    workpiece: &Workpiece<'_, G>,
    want: Want,
    count: u32,
) -> Result<Option<Covers>, SurveyFault>
    requires few { count ≤ layer_limit }
    requires counted { count ≡ layer_count workpiece.now.settings.layer_height (solid_of workpiece.now.tree.now) }

    ensures fits { IfOk result (CoversFit want workpiece.now.settings (solid_of workpiece.now.tree.now)) }
    ensures over { (budget : Budget) → result ≡ Err (Over budget)
        → IsPassedByAll want workpiece.now.settings (solid_of workpiece.now.tree.now) budget }
{
    match want {
        Want::Outlines => Ok(None),
        Want::Plan => covers_below(rt, alloc, workpiece, count),
    }
}

// What stands below higher layers, where supports are wanted.
fn covers_below<R: Threads + Sync, G: Gate>(
    rt: &R,
    alloc: Global,
    workpiece: &Workpiece<'_, G>,
    count: u32,
) -> Result<Option<Covers>, SurveyFault>
    requires few { count ≤ layer_limit }
    requires counted { count ≡ layer_count workpiece.now.settings.layer_height (solid_of workpiece.now.tree.now) }

    ensures fits { IfOk result (CoversFit Plan workpiece.now.settings (solid_of workpiece.now.tree.now)) }
    ensures over { (budget : Budget) → result ≡ Err (Over budget)
        → IsPassedByAll Plan workpiece.now.settings (solid_of workpiece.now.tree.now) budget }
{
    if workpiece.settings.support_spacing == 0 {
        return Ok(None);
    }
    let rows = surveyed(rt, alloc, workpiece, count)?;
    match covers(rt, alloc, &rows, workpiece.workers) {
        Ok(covers) => Ok(Some(covers)),
        Err(CoverFault::Memory) => Err(SurveyFault::Memory),
        Err(CoverFault::Runs(runs)) => Err(SurveyFault::Over(Budget::support_runs(runs))),
    }
}

// The rows of support lines of the outlines of all layers, or the budget of the least layer that passes one.
fn surveyed<R: Threads + Sync, G: Gate>(
    rt: &R,
    alloc: Global,
    workpiece: &Workpiece<'_, G>,
    count: u32,
) -> Result<Vec<Rows>, SurveyFault>
    requires few { count ≤ layer_limit }
    requires counted { count ≡ layer_count workpiece.now.settings.layer_height (solid_of workpiece.now.tree.now) }
    requires spaced { 0 < workpiece.now.settings.support_spacing }

    ensures rows { IfOk result (λ rows.
        AreSurveyedOf workpiece.now.settings (solid_of workpiece.now.tree.now) rows.items) }
    ensures over { (budget : Budget) → result ≡ Err (Over budget)
        → IsPassedByAll Plan workpiece.now.settings (solid_of workpiece.now.tree.now) budget }
{
    workpiece.tree.are_solids();
    let layers = work_on(workpiece, Want::Outlines, count, None);
    let spacing = workpiece.settings.support_spacing;
    survey(rt, alloc, count, &layers, spacing, workpiece.workers)
}
