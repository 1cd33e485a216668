//! What follows the tree of a source that is sliced.
ghost use Rattle.std.specs.Prelude.{◌≡◌, false};
ghost use Rattle.scad_script.specs.Play.{Completes};
ghost use Rattle.scad_script.specs.Run.{Sound};
ghost use Rattle.scad_script.specs.Departure.{Leaves};
ghost use Rattle.scad_tree.specs.View.{solid_of};
ghost use Rattle.slice_work.specs.declared.want.Want.TheVariants.{Outlines};
ghost use Rattle.scad_slice.specs.Parts.{IsPart};
ghost use Rattle.scad_slice.specs.Script.{slice_script};

use crate::layer_count::count_layers;
use crate::lines::done_line;
use crate::tree_files::draw;
use crate::workpiece::Workpiece;
use scad_fault::Text;
use scad_io::{Desk, Gate, Out};
use scad_script::{Stop, make};
use slice_work::Want;
use std::alloc::Global;
use std::thread::Threads;

/// Writes the outlines of a tree to the file of this name: the last line, or why it stopped.
///
/// More than 20,000 layers are refused before the file is created. The work on the layers is done by the workpiece's
/// workers, and a layer that passes a budget ends the file, as `draw` says.
pub fn slice<R: Threads + Sync, D: Desk, G: Gate>(
    rt: &R,
    alloc: Global,
    workpiece: &Workpiece<'_, G>,
    cli: &str,
    desk: &mut D,
) -> Result<Text, Stop>
    requires sound { Sound (D.view desk.old) }
    requires absent { (D.view desk.old).cli.created ≡ false }

    ensures completes { (part : _) → IsPart Outlines workpiece.now.settings (solid_of workpiece.now.tree.now) part
        → Completes (slice_script workpiece.now.settings cli.now part (solid_of workpiece.now.tree.now))
        result (D.view desk.old) (D.view desk.new) }
    ensures leaves { Leaves D.files D.faults desk.old desk.new result }
{
    count_layers(workpiece.tree, workpiece.settings.layer_height)?;
    make(desk, Out::Cli, cli)?;
    let written = draw(rt, alloc, workpiece, Want::Outlines, desk)?;
    let line = done_line(alloc, &written.summary)?;
    Ok(Text::from_vec(line))
}
