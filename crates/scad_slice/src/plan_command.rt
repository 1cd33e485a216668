//! What follows the tree of a source that is planned.
ghost use Rattle.std.specs.Prelude.{◌≡◌, false};
ghost use Rattle.scad_script.specs.Play.{Completes};
ghost use Rattle.scad_script.specs.Run.{Sound};
ghost use Rattle.scad_script.specs.Departure.{Leaves};
ghost use Rattle.scad_tree.specs.View.{solid_of};
ghost use Rattle.slice_work.specs.declared.want.Want.TheVariants.{Plan};
ghost use Rattle.scad_slice.specs.Parts.{IsPart};
ghost use Rattle.scad_slice.specs.Script.{plan_script};

use crate::layer_count::count_layers;
use crate::lines::plan_line;
use crate::tree_files::draw;
use crate::workpiece::Workpiece;
use scad_fault::Text;
use scad_io::{Desk, Gate, Out};
use scad_script::{Stop, make};
use slice_work::Want;
use std::alloc::Global;
use std::thread::Threads;

/// Writes the outlines of a tree and its printing program to the files of these names, a layer at a time: the last
/// line, or why it stopped.
///
/// More than 20,000 layers are refused before a file is created. The outlines are created first. The work on the
/// layers is done by the workpiece's workers, and a layer that passes a budget ends both files, as `draw` says. With
/// the setting `support_spacing` not 0 the program prints supports too: of each layer runs under what any higher layer
/// has.
pub fn plan<R: Threads + Sync, D: Desk, G: Gate>(
    rt: &R,
    alloc: Global,
    workpiece: &Workpiece<'_, G>,
    cli: &str,
    gcode: &str,
    desk: &mut D,
) -> Result<Text, Stop>
    requires sound { Sound (D.view desk.old) }
    requires absent { (D.view desk.old).cli.created ≡ false }
    requires missing { (D.view desk.old).gcode.created ≡ false }

    ensures completes { (part : _) → IsPart Plan workpiece.now.settings (solid_of workpiece.now.tree.now) part
        → Completes (plan_script workpiece.now.settings cli.now gcode.now part (solid_of workpiece.now.tree.now))
        result (D.view desk.old) (D.view desk.new) }
    ensures leaves { Leaves D.files D.faults desk.old desk.new result }
{
    count_layers(workpiece.tree, workpiece.settings.layer_height)?;
    make(desk, Out::Cli, cli)?;
    make(desk, Out::Gcode, gcode)?;
    let written = draw(rt, alloc, workpiece, Want::Plan, desk)?;
    let line = plan_line(alloc, &written.summary)?;
    Ok(Text::from_vec(line))
}
