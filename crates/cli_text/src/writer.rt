//! The head, the layers and the end of a file.
ghost use Rattle.std.specs.Prelude.{◌≡◌, ◌++◌, OnOk, OnErr};
ghost use Rattle.std.specs.List.{flat_map};
ghost use Rattle.scad_geom.specs.declared.point.Edge.{Edge};
ghost use Rattle.text_scan.specs.Printing.{Adds};
ghost use Rattle.cli_text.specs.Cli.{head_start, head_end, head, layer_start, layer_text, polyline_text, geometry_end};

use crate::hatches::push_hatches;
use crate::polyline::push_polyline;
use scad_geom::{Edge, Loop};
use std::alloc::AllocError;
use text_scan::Printer;

/// Appends the head of a file of `layers` layers. Where memory runs out, `out` is as it was.
pub fn write_head(out: &mut Vec<u8>, layers: u32) -> Result<(), AllocError>
    ensures ok { OnOk result (out.new.items ≡ out.old.items ++ head layers) }
    ensures err { OnErr result (out.new.items ≡ out.old.items) }
{
    let kept = out.len();
    let mut printer = Printer::behind(out);
    push_head(&mut printer, layers);
    printer.hand_back(out, kept)
}

/// Appends the lines of a layer: `z` is the height of its upper surface in micrometres, `loops` are
/// its outlines, and `hatches` the straight lines that fill it, each from `a` to `b`; without any
/// there is no line of them. Where memory runs out, `out` is as it was.
pub fn write_layer(
    out: &mut Vec<u8>,
    z: u32,
    loops: &[Loop],
    hatches: &[Edge],
) -> Result<(), AllocError>
    ensures ok { OnOk result (out.new.items ≡ out.old.items
        ++ layer_text (record { z = z; loops = loops.now; hatches = hatches.now })) }
    ensures err { OnErr result (out.new.items ≡ out.old.items) }
{
    let kept = out.len();
    let mut printer = Printer::behind(out);
    push_layer(&mut printer, z, loops, hatches);
    printer.hand_back(out, kept)
}

/// Appends the end of a file. Where memory runs out, `out` is as it was.
#[tactic(auto, unfolding(crate::specs::Cli::geometry_end))]
pub fn write_end(out: &mut Vec<u8>) -> Result<(), AllocError>
    ensures ok { OnOk result (out.new.items ≡ out.old.items ++ geometry_end) }
    ensures err { OnErr result (out.new.items ≡ out.old.items) }
{
    out.extend_from_slice(b"$$GEOMETRYEND\n")
}

fn push_head(out: &mut Printer, layers: u32)
    ensures { Adds (head layers) out.old out.new }
{
    push_head_start(out);
    out.number(layers);
    push_head_end(out);
}

#[tactic(auto, unfolding(crate::specs::Cli::head_start))]
fn push_head_start(out: &mut Printer)
    ensures { Adds head_start out.old out.new }
{
    out.put(b"$$HEADERSTART\n$$ASCII\n$$UNITS/0.001\n$$VERSION/200\n$$LAYERS/");
}

#[tactic(auto, unfolding(crate::specs::Cli::head_end))]
fn push_head_end(out: &mut Printer)
    ensures { Adds head_end out.old out.new }
{
    out.put(b"\n$$HEADEREND\n$$GEOMETRYSTART\n");
}

fn push_layer(out: &mut Printer, z: u32, loops: &[Loop], hatches: &[Edge])
    ensures { Adds (layer_text (record { z = z; loops = loops.now; hatches = hatches.now })) out.old out.new }
{
    push_layer_start(out);
    out.number(z);
    out.byte(b'\n');
    push_polylines(out, loops);
    push_hatches(out, hatches);
}

#[tactic(auto, unfolding(crate::specs::Cli::layer_start))]
fn push_layer_start(out: &mut Printer)
    ensures { Adds layer_start out.old out.new }
{
    out.put(b"$$LAYER/");
}

fn push_polylines(out: &mut Printer, loops: &[Loop])
    ensures { Adds (flat_map polyline_text loops.now) out.old out.new }
{
    'loops: for outline in loops {
        push_polyline(out, outline.as_slice());
    }
}
