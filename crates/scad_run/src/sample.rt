//! The end of `sample`: its tree is planned, and nothing is kept of the files but their sizes.
ghost use Rattle.std.specs.Prelude.{◌≡◌, ◌++◌, IfOk, OnOk};
ghost use Rattle.slice_work.specs.declared.want.Want.TheVariants.{Plan};
ghost use Rattle.scad_tree.specs.View.{solid_of};
ghost use Rattle.scad_slice.specs.Parts.{IsPart};
ghost use Rattle.scad_run.specs.SourceReport.{counts_text, sizes_text, sample_line, sample_script};
ghost use Rattle.scad_run.specs.Playing.{IsEnd};

use gcode_text::push_hundred_thousandths;
use scad_fault::Text;
use scad_io::{Gate, NullDesk, Out};
use scad_script::{Stop, make};
use scad_slice::{Summary, Want, Workpiece, Written, count_layers, draw};
use std::alloc::{AllocError, Global};
use std::thread::Threads;
use text_scan::push_number;

/// The line with what the plan of the sample of this number has, or the budget that it passes.
pub fn sampled<R: Threads + Sync, G: Gate>(
    rt: &R,
    alloc: Global,
    n: u32,
    workpiece: &Workpiece<'_, G>,
) -> Result<Text, Stop>
    ensures { (part : _) → IsPart Plan workpiece.now.settings (solid_of workpiece.now.tree.now) part
        → IsEnd (sample_script n workpiece.now.settings part (solid_of workpiece.now.tree.now)) result }
{
    count_layers(workpiece.tree, workpiece.settings.layer_height)?;
    let mut desk = NullDesk::new();
    make(&mut desk, Out::Cli, "")?;
    make(&mut desk, Out::Gcode, "")?;
    let written = draw(rt, alloc, workpiece, Want::Plan, &mut desk)?;
    let line = sample_line(alloc, n, &written)?;
    Ok(Text::from_vec(line))
}

/// `sample N: L layers, K loops, M moves, E e, C cli bytes, G gcode bytes`
#[tactic(auto, unfolding(crate::specs::SourceReport::sample_line))]
fn sample_line(alloc: Global, n: u32, told: &Written) -> Result<Vec<u8>, AllocError>
    ensures { IfOk result (λ line. line.items ≡ sample_line n told.now.summary.layers told.now.summary.loops told.now.summary.moves
        told.now.summary.e told.now.cli told.now.gcode) }
{
    let mut line = Vec::from_slice(alloc, b"sample ")?;
    push_number(&mut line, u64::from(n))?;
    line.extend_from_slice(b": ")?;
    push_counts(&mut line, &told.summary)?;
    push_sizes(&mut line, told.cli, told.gcode)?;
    Ok(line)
}

/// `L layers, K loops, M moves, E e`
#[tactic(auto, unfolding(crate::specs::SourceReport::counts_text))]
fn push_counts(line: &mut Vec<u8>, told: &Summary) -> Result<(), AllocError>
    ensures { OnOk result (line.new.items ≡ line.old.items ++ counts_text told.now.layers told.now.loops told.now.moves told.now.e) }
{
    push_number(line, u64::from(told.layers))?;
    line.extend_from_slice(b" layers, ")?;
    push_number(line, told.loops)?;
    line.extend_from_slice(b" loops, ")?;
    push_number(line, told.moves)?;
    line.extend_from_slice(b" moves, E ")?;
    push_hundred_thousandths(line, u128::from(told.e))
}

/// `, C cli bytes, G gcode bytes`
#[tactic(auto, unfolding(crate::specs::SourceReport::sizes_text))]
fn push_sizes(line: &mut Vec<u8>, cli: u64, gcode: u64) -> Result<(), AllocError>
    ensures { OnOk result (line.new.items ≡ line.old.items ++ sizes_text cli gcode) }
{
    line.extend_from_slice(b", ")?;
    push_number(line, cli)?;
    line.extend_from_slice(b" cli bytes, ")?;
    push_number(line, gcode)?;
    line.extend_from_slice(b" gcode bytes\n")
}
