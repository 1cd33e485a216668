//! The files of a tree.
ghost use Rattle.std.specs.Prelude.{◌≡◌, ◌+◌, ◌≤◌, ◌<◌, IfOk, IfSome};
ghost use Rattle.scad_script.specs.Script.{layers};
ghost use Rattle.scad_script.specs.Play.{Carries};
ghost use Rattle.scad_script.specs.Run.{Sound};
ghost use Rattle.scad_script.specs.Departure.{Keeps};
ghost use Rattle.scad_tree.specs.View.{solid_of};
ghost use Rattle.slice_work.specs.Part.{layer_limit};
ghost use Rattle.slice_work.specs.Script.{AreThere, layer_steps, stop_of};
ghost use Rattle.slice_work.specs.Rates.{rates_of};
ghost use Rattle.slice_work.specs.Sums.{IsSummary};
ghost use Rattle.scad_slice.specs.Budgets.{layer_count};
ghost use Rattle.scad_slice.specs.Parts.{IsPart};
ghost use Rattle.scad_slice.specs.Script.{files, IsWritten};

use crate::covers::covers_of;
use crate::pieces::{send_heads, send_tails};
use crate::summary::{Sizes, Written};
use crate::tree_work::work_on;
use crate::workpiece::Workpiece;
use scad_io::{Desk, Gate};
use scad_script::{Refusal, Stop};
use slice_work::{Summary, SurveyFault, Want, WorkFault, work};
use std::alloc::Global;
use std::thread::Threads;

/// Writes the files of a tree to outputs that are created: the heads, the layers from the lowest upwards, and the
/// ends. The work on the layers is done by the workpiece's workers; the bytes and the answer are the same for every
/// number of them.
///
/// Where the outlines alone are wanted, the printing program isn't written. A layer whose section has more than
/// 20,000 edges, or then more than 2,000,000 crossings of edges, ends the files before its own bytes; with a plan so
/// does one whose walls have too many edges or crossings, or then whose plan has too many moves. The answer is the
/// budget of the lowest such layer.
///
/// With the setting `support_spacing` not 0 a plan prints support runs of each layer under what any higher layer has.
/// So the sections of all layers are judged behind the heads, and then the stretches of support lines below higher
/// layers, of which there are at most 10,000,000; what passes its budget ends the files before the lowest layer.
pub fn draw<R: Threads + Sync, D: Desk, G: Gate>(
    rt: &R,
    alloc: Global,
    workpiece: &Workpiece<'_, G>,
    want: Want,
    desk: &mut D,
) -> Result<Written, Stop>
    requires few { layer_count workpiece.now.settings.layer_height (solid_of workpiece.now.tree.now) ≤ layer_limit }
    requires sound { Sound (D.view desk.old) }
    requires there { AreThere want (D.view desk.old) }

    ensures carries { (part : _) → IsPart want workpiece.now.settings (solid_of workpiece.now.tree.now) part
        → Carries (files want workpiece.now.settings part
        (layer_count workpiece.now.settings.layer_height (solid_of workpiece.now.tree.now)))
        result (D.view desk.old) (D.view desk.new) }
    ensures written { IfOk result (λ w. (part : _)
        → IsPart want workpiece.now.settings (solid_of workpiece.now.tree.now) part
        → IsWritten want workpiece.now.settings part
        (layer_count workpiece.now.settings.layer_height (solid_of workpiece.now.tree.now)) w) }
    ensures kept { Keeps D.files D.view D.faults desk.old desk.new result }
{
    let count = workpiece.tree.layers(workpiece.settings.layer_height);
    let heads = send_heads(alloc, &workpiece.settings, want, count, desk)?;
    let told = send_layers(rt, alloc, workpiece, want, count, desk)?;
    let tails = send_tails(alloc, want, desk)?;
    match written(told, heads, tails) {
        Some(written) => Ok(written),
        None => Err(Stop::Memory),
    }
}

// Writes the layers; where what stands below higher layers passes a budget, none.
fn send_layers<R: Threads + Sync, D: Desk, G: Gate>(
    rt: &R,
    alloc: Global,
    workpiece: &Workpiece<'_, G>,
    want: Want,
    count: u32,
    desk: &mut D,
) -> Result<Summary, Stop>
    requires few { count ≤ layer_limit }
    requires counted { count ≡ layer_count workpiece.now.settings.layer_height (solid_of workpiece.now.tree.now) }
    requires sound { Sound (D.view desk.old) }
    requires there { AreThere want (D.view desk.old) }

    ensures carries { (part : _) → IsPart want workpiece.now.settings (solid_of workpiece.now.tree.now) part
        → Carries (layers (layer_steps want (rates_of workpiece.now.settings) part) 0 count)
        result (D.view desk.old) (D.view desk.new) }
    ensures told { IfOk result (λ s. (part : _)
        → IsPart want workpiece.now.settings (solid_of workpiece.now.tree.now) part
        → IsSummary want (rates_of workpiece.now.settings) part count s) }
    ensures kept { Keeps D.files D.view D.faults desk.old desk.new result }
{
    workpiece.tree.are_solids();
    let covers = match covers_of(rt, alloc, workpiece, want, count) {
        Ok(covers) => covers,
        Err(SurveyFault::Memory) => return Err(Stop::Memory),
        Err(SurveyFault::Over(budget)) => return Err(Stop::Ends(Refusal::Over(budget))),
    };
    let layers = work_on(workpiece, want, count, covers.as_ref());
    match work(rt, alloc, count, &layers, &layers.print, desk) {
        Ok(told) => Ok(told),
        Err(fault) => Err(stop_of(fault)),
    }
}

fn stop_of(fault: WorkFault) -> Stop
    ensures { result ≡ stop_of fault }
{
    match fault {
        WorkFault::Memory => Stop::Memory,
        WorkFault::Write => Stop::Write,
        WorkFault::Over(budget) => Stop::Ends(Refusal::Over(budget)),
    }
}

// What is told of the layers, with the bytes of heads and ends. No memory holds more than the numbers count.
fn written(told: Summary, heads: Sizes, tails: Sizes) -> Option<Written>
    ensures { IfSome result (λ w. w ≡ record {
      summary = told;
      cli = heads.cli + told.cli + tails.cli;
      gcode = heads.gcode + told.gcode + tails.gcode;
    }) }
{
    Some(Written {
        summary: told,
        cli: heads.cli.checked_add(told.cli)?.checked_add(tails.cli)?,
        gcode: heads
            .gcode
            .checked_add(told.gcode)?
            .checked_add(tails.gcode)?,
    })
}
