//! What a command does with a source's tree.
ghost use Rattle.std.specs.Prelude.{◌≡◌, ◌<◌, false, None};
ghost use Rattle.scad_script.specs.Play.{Completes};
ghost use Rattle.scad_script.specs.Run.{Sound};
ghost use Rattle.scad_script.specs.Departure.{Leaves};
ghost use Rattle.scad_tree.specs.View.{solid_of};
ghost use Rattle.scad_tree.specs.Solids.{AreSolids};
ghost use Rattle.scad_run.specs.Words.{case_of};
ghost use Rattle.scad_run.specs.Answer.{follows, ArePartsOfTree};

use crate::check::{checked, shown};
use crate::order::Order;
use crate::sample::sampled;
use scad_fault::Text;
use scad_io::{Desk, Gate};
use scad_script::Stop;
use scad_slice::{Workpiece, plan, slice};
use scad_tree::Tree;
use scad_words::Command;
use std::alloc::Global;
use std::thread::Threads;

/// Does with the tree what the command says: the last line, or why it stopped.
pub fn finish<R: Threads + Sync, D: Desk, G: Gate>(
    rt: &R,
    alloc: Global,
    order: &Order,
    tree: &Tree,
    desk: &mut D,
    gate: &G,
) -> Result<Text, Stop>
    requires solids { AreSolids (solid_of tree.now) }
    requires source { case_of order.now.command.now ≡ None }
    requires sound { Sound (D.view desk.old) }
    requires no_cli { (D.view desk.old).cli.created ≡ false }
    requires no_gcode { (D.view desk.old).gcode.created ≡ false }

    ensures completes { (parts : _) → ArePartsOfTree (solid_of tree.now) parts
        → Completes (follows order.now.command.now order.now.settings parts (solid_of tree.now)) result
        (D.view desk.old) (D.view desk.new) }
    ensures leaves { Leaves D.files D.faults desk.old desk.new result }
{
    let workpiece = Workpiece {
        tree,
        settings: order.settings,
        workers: order.workers,
        gate,
    };
    match order.command {
        Command::Check(_) => checked(alloc, tree, order.settings.layer_height),
        Command::Tree(_) => shown(alloc, tree),
        Command::Slice(_, cli) => slice(rt, alloc, &workpiece, cli.as_str(), desk),
        Command::Plan(_, cli, gcode) => plan(
            rt,
            alloc,
            &workpiece,
            cli.as_str(),
            gcode.as_str(),
            desk,
        ),
        Command::Sample(n) => sampled(rt, alloc, *n, &workpiece),
        Command::Verify(_, _) => unreachable!(),
    }
}
