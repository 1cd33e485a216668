//! The head, the layers and the end of a program.
ghost use Rattle.std.specs.Prelude.{◌≡◌, ◌+◌, ◌^◌, ◌<◌, ◌≤◌, ◌++◌, length, OnOk, OnErr};
ghost use Rattle.std.specs.List.{sum_by};
ghost use Rattle.text_scan.specs.Printing.{Adds};
ghost use Rattle.gcode_text.specs.Limits.{width_limit, height_limit, volume_limit};
ghost use Rattle.gcode_text.specs.Amount.{paths_volume};
ghost use Rattle.gcode_text.specs.Gcode.{setup, home, head, layer_text, supports_text, end};

use crate::layer::{push_layer, push_supports};
use crate::rates::Rates;
use crate::word::push_heat;
use scad_geom::Path;
use std::alloc::AllocError;
use text_scan::Printer;

/// Appends the head of a program, with the temperatures of the hot end and of the bed in degrees Celsius. Where
/// memory runs out, `out` is as it was.
pub fn write_head(out: &mut Vec<u8>, hot_end: u32, bed: u32) -> Result<(), AllocError>
    ensures ok { OnOk result (out.new.items ≡ out.old.items ++ head hot_end bed) }
    ensures err { OnErr result (out.new.items ≡ out.old.items) }
{
    let kept = out.len();
    let mut printer = Printer::behind(out);
    push_head(&mut printer, hot_end, bed);
    printer.hand_back(out, kept)
}

/// Appends the lines of a layer. `volume` is that of all extruding moves so far, in cubic micrometres, and rises
/// by that of the layer's moves. Where memory runs out, `out` and `volume` are as they were.
pub fn write_layer(
    out: &mut Vec<u8>,
    layer: u32,
    paths: &[Path],
    rates: &Rates,
    volume: &mut u128,
) -> Result<(), AllocError>
    requires width { rates.now.line_width ≤ width_limit }
    requires height { rates.now.layer_height ≤ height_limit }
    requires area { 1 ≤ rates.now.filament_area }
    requires count { sum_by length paths.now < 2 ^ 32 }
    requires volume { volume.old ≤ volume_limit }
    ensures ok { OnOk result
        (out.new.items ≡ out.old.items ++ layer_text rates.now volume.old layer paths.now) }
    ensures volume { OnOk result (volume.new ≡ volume.old + paths_volume rates.now paths.now) }
    ensures err { OnErr result (out.new.items ≡ out.old.items) }
    ensures kept { OnErr result (volume.new ≡ volume.old) }
{
    let kept = out.len();
    let mut printer = Printer::behind(out);
    let sum = push_layer(&mut printer, layer, paths, rates, *volume);
    let written = printer.hand_back(out, kept);
    if written.is_ok() {
        *volume = sum;
    }
    written
}

/// Appends the lines of supports, behind those of their layer: a comment and their paths; nothing where there are none.
/// `volume` is as for `write_layer`. Where memory runs out, `out` and `volume` are as they were.
pub fn write_supports(
    out: &mut Vec<u8>,
    paths: &[Path],
    rates: &Rates,
    volume: &mut u128,
) -> Result<(), AllocError>
    requires width { rates.now.line_width ≤ width_limit }
    requires height { rates.now.layer_height ≤ height_limit }
    requires area { 1 ≤ rates.now.filament_area }
    requires count { sum_by length paths.now < 2 ^ 32 }
    requires volume { volume.old ≤ volume_limit }
    ensures ok { OnOk result
        (out.new.items ≡ out.old.items ++ supports_text rates.now volume.old paths.now) }
    ensures volume { OnOk result (volume.new ≡ volume.old + paths_volume rates.now paths.now) }
    ensures err { OnErr result (out.new.items ≡ out.old.items) }
    ensures kept { OnErr result (volume.new ≡ volume.old) }
{
    let kept = out.len();
    let mut printer = Printer::behind(out);
    let sum = push_supports(&mut printer, paths, rates, *volume);
    let written = printer.hand_back(out, kept);
    if written.is_ok() {
        *volume = sum;
    }
    written
}

/// Appends the end of a program. Where memory runs out, `out` is as it was.
#[tactic(auto, unfolding(crate::specs::Gcode::end))]
pub fn write_end(out: &mut Vec<u8>) -> Result<(), AllocError>
    ensures ok { OnOk result (out.new.items ≡ out.old.items ++ end) }
    ensures err { OnErr result (out.new.items ≡ out.old.items) }
{
    out.extend_from_slice(b"M104 S0\nM140 S0\nM84\n")
}

fn push_head(out: &mut Printer, hot_end: u32, bed: u32)
    ensures { Adds (head hot_end bed) out.old out.new }
{
    push_setup(out);
    push_heat(out, b"M140", bed);
    push_heat(out, b"M104", hot_end);
    push_heat(out, b"M190", bed);
    push_heat(out, b"M109", hot_end);
    push_home(out);
}

#[tactic(auto, unfolding(crate::specs::Gcode::setup))]
fn push_setup(out: &mut Printer)
    ensures { Adds setup out.old out.new }
{
    out.put(b"; scadslice\nG21\nG90\nM82\nM107\n");
}

#[tactic(auto, unfolding(crate::specs::Gcode::home))]
fn push_home(out: &mut Printer)
    ensures { Adds home out.old out.new }
{
    out.put(b"G28\nG92 E0\n");
}
