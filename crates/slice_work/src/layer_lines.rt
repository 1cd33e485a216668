//! One layer is written.
ghost use Rattle.std.specs.Prelude.{◌≡◌, ◌≢◌, ◌+◌, ◌*◌, ◌^◌, ◌<◌, ◌≤◌, ◌++◌, ◌∷◌, [], true, length, IfOk, OnOk};
ghost use Rattle.std.specs.List.{sum_by};
ghost use Rattle.scad_script.specs.Steps.{Sends};
ghost use Rattle.scad_script.specs.Script.{first};
ghost use Rattle.scad_script.specs.Play.{Carries, IsThere};
ghost use Rattle.scad_script.specs.Run.{Sound};
ghost use Rattle.scad_script.specs.Departure.{Keeps};
ghost use Rattle.gcode_text.specs.Amount.{paths_volume};
ghost use Rattle.gcode_text.specs.Limits.{volume_limit};
ghost use Rattle.slice_work.specs.Part.{layer_limit, move_count};
ghost use Rattle.slice_work.specs.Script.{AreRates, AreThere, laid_out, layout_lines, move_lines, written, stopped};
ghost use Rattle.slice_work.specs.Sums.{with_layer};

use crate::fault::WorkFault;
use crate::hatches::last_moves;
use crate::laid_layer::LaidLayer;
use crate::sums::{Sums, moves_of_both};
use crate::want::Want;
use gcode_text::{Rates, are_few};
use scad_geom::Path;
use scad_io::{Desk, Failed, Out, write_all};
use std::alloc::{AllocError, Global};

/// The greatest volume of all moves so far behind which a layer is written, in cubic micrometres. It is more than
/// 10^12 cubic metres.
const VOLUME_LIMIT: u128 = 1_000_000_000_000_000_000_000_000_000_000;

/// Writes a layer: the lines of its outlines and of its infill, and then those of its moves and its supports, where they
/// are wanted. What is counted of the layers so far then counts this one too.
pub fn send_layer<D: Desk>(
    alloc: Global,
    want: Want,
    rates: &Rates,
    layer: &LaidLayer,
    sums: Sums,
    desk: &mut D,
) -> Result<Sums, WorkFault>
    requires rates { AreRates rates.now }
    requires layer { layer.now.number < layer_limit }
    requires sound { Sound (D.view desk.old) }
    requires there { AreThere want (D.view desk.old) }

    ensures carries { Carries (first (written want rates.now sums.volume layer.now.number (laid_out layer.now)))
        (stopped result) (D.view desk.old) (D.view desk.new) }
    ensures sums { IfOk result (λ s. s ≡ with_layer want rates.now layer.now.number (laid_out layer.now) sums) }
    ensures kept { Keeps D.files D.view D.faults desk.old desk.new (stopped result) }
{
    let cli = send_outlines(alloc, rates, layer, desk)?;
    let Some(sums) = sums.with_outlines(layer.loops.len(), cli) else {
        return Err(WorkFault::Memory);
    };
    match want {
        Want::Outlines => Ok(sums),
        Want::Plan => send_moves(alloc, rates, layer, sums, desk),
    }
}

// Writes the lines of a layer's outlines and hatches: how long they are.
fn send_outlines<D: Desk>(
    alloc: Global,
    rates: &Rates,
    layer: &LaidLayer,
    desk: &mut D,
) -> Result<usize, WorkFault>
    requires rates { AreRates rates.now }
    requires layer { layer.now.number < layer_limit }
    requires sound { Sound (D.view desk.old) }
    requires made { (D.view desk.old).cli.created ≡ true }

    ensures carries { Carries
        (first (Sends Out.Cli (layout_lines rates.now layer.now.number (laid_out layer.now)) ∷ []))
        (stopped result) (D.view desk.old) (D.view desk.new) }
    ensures size { IfOk result (λ n. n ≡ length (layout_lines rates.now layer.now.number (laid_out layer.now))) }
    ensures kept { Keeps D.files D.view D.faults desk.old desk.new (stopped result) }
{
    let text = outline_text(alloc, rates, layer)?;
    send(desk, Out::Cli, &text)?;
    Ok(text.len())
}

// The lines of a layer's outlines, and of its runs of infill as hatches.
fn outline_text(alloc: Global, rates: &Rates, layer: &LaidLayer) -> Result<Vec<u8>, AllocError>
    requires rates { AreRates rates.now }
    requires layer { layer.now.number < layer_limit }

    ensures { IfOk result (λ v. v.items ≡ layout_lines rates.now layer.now.number (laid_out layer.now)) }
{
    let hatches = last_moves(alloc, layer.paths, layer.runs)?;
    let height = rates.layer_height * (layer.number + 1);
    let mut text = Vec::new(alloc);
    cli_text::write_layer(&mut text, height, layer.loops, &hatches)?;
    Ok(text)
}

// Writes the lines of a layer's moves, and of those of its supports.
fn send_moves<D: Desk>(
    alloc: Global,
    rates: &Rates,
    layer: &LaidLayer,
    sums: Sums,
    desk: &mut D,
) -> Result<Sums, WorkFault>
    requires rates { AreRates rates.now }
    requires sound { Sound (D.view desk.old) }
    requires made { (D.view desk.old).gcode.created ≡ true }

    ensures carries { Carries
        (first (Sends Out.Gcode (move_lines rates.now sums.volume layer.now.number (laid_out layer.now)) ∷ []))
        (stopped result) (D.view desk.old) (D.view desk.new) }
    ensures sums { IfOk result (λ s. s ≡ record sums {
      moves = sums.moves + move_count (layer.now.paths.now ++ layer.now.supports.now);
      volume = sums.volume + paths_volume rates.now (layer.now.paths.now ++ layer.now.supports.now);
      gcode = sums.gcode + length (move_lines rates.now sums.volume layer.now.number (laid_out layer.now));
    }) }
    ensures kept { Keeps D.files D.view D.faults desk.old desk.new (stopped result) }
{
    let mut volume = sums.volume;
    let text = move_text(alloc, rates, layer, &mut volume)?;
    send(desk, Out::Gcode, &text)?;
    let Some(moves) = moves_of_both(layer.paths, layer.supports) else {
        return Err(WorkFault::Memory);
    };
    match sums.with_moves(moves, volume, text.len()) {
        Some(sums) => Ok(sums),
        None => Err(WorkFault::Memory),
    }
}

// The lines of a layer's moves, and of those of its supports, behind a volume that rises by theirs.
fn move_text(
    alloc: Global,
    rates: &Rates,
    layer: &LaidLayer,
    volume: &mut u128,
) -> Result<Vec<u8>, AllocError>
    requires rates { AreRates rates.now }

    ensures text { IfOk result (λ v. v.items ≡ move_lines rates.now volume.old layer.now.number (laid_out layer.now)) }
    ensures volume { OnOk result (volume.new ≡ volume.old
        + paths_volume rates.now (layer.now.paths.now ++ layer.now.supports.now)) }
{
    let mut text = Vec::new(alloc);
    check(*volume, layer.paths)?;
    gcode_text::write_layer(&mut text, layer.number, layer.paths, rates, volume)?;
    check(*volume, layer.supports)?;
    gcode_text::write_supports(&mut text, layer.supports, rates, volume)?;
    Ok(text)
}

// No memory holds so many points, or is so far through a part, that paths can't be written behind a volume.
fn check(volume: u128, paths: &[Path]) -> Result<(), AllocError>
    ensures volume { OnOk result (volume ≤ volume_limit) }
    ensures points { OnOk result (sum_by length paths.now < 2 ^ 32) }
{
    if volume > VOLUME_LIMIT || !are_few(paths) {
        return Err(AllocError);
    }
    Ok(())
}

// Writes a piece to an output that isn't the report.
fn send<D: Desk>(desk: &mut D, out: Out, piece: &[u8]) -> Result<(), WorkFault>
    requires named { out ≢ Out.Report }
    requires sound { Sound (D.view desk.old) }
    requires made { IsThere out (D.view desk.old) }

    ensures carries { Carries (first (Sends out piece.now ∷ [])) (stopped result) (D.view desk.old) (D.view desk.new) }
    ensures kept { Keeps D.files D.view D.faults desk.old desk.new (stopped result) }
{
    match write_all(desk, out, piece) {
        Ok(()) => Ok(()),
        Err(Failed) => Err(WorkFault::Write),
    }
}
