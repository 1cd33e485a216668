//! Words and lines.
ghost use Rattle.text_scan.specs.Printing.{Adds};
ghost use Rattle.gcode_text.specs.Gcode.{target, feed_end, amount, travel_line, print_line, height_line, heat_line, number_line, supports_line};

use crate::numeral::{push_amount, push_millimetres, push_thousandths};
use crate::rates::Rates;
use scad_geom::Pt;
use text_scan::Printer;

// `G1 Xx Yy`
fn push_target(out: &mut Printer, to: Pt)
    ensures { Adds (target to) out.old out.new }
{
    out.put(b"G1 X");
    push_millimetres(out, to.x);
    out.put(b" Y");
    push_millimetres(out, to.y);
}

// ` Ff` and the line's end
fn push_feed(out: &mut Printer, feed: u32)
    ensures { Adds (feed_end feed) out.old out.new }
{
    out.put(b" F");
    out.number(feed);
    out.byte(b'\n');
}

/// Appends the line of a move that doesn't extrude.
pub fn push_travel(out: &mut Printer, rates: &Rates, to: Pt)
    ensures { Adds (travel_line rates.now to) out.old out.new }
{
    push_target(out, to);
    push_feed(out, rates.travel_feed);
}

/// Appends the line of a move that extrudes up to the amount `e`, in hundred-thousandths of a millimetre.
pub fn push_print(out: &mut Printer, rates: &Rates, to: Pt, e: u128)
    ensures { Adds (print_line rates.now to e) out.old out.new }
{
    push_target(out, to);
    push_filament(out, e);
    push_feed(out, rates.print_feed);
}

// ` Ee`
fn push_filament(out: &mut Printer, e: u128)
    ensures { Adds (amount e) out.old out.new }
{
    out.put(b" E");
    push_amount(out, e);
}

/// Appends the line that goes to a height in micrometres.
pub fn push_height(out: &mut Printer, rates: &Rates, z: u64)
    ensures { Adds (height_line rates.now z) out.old out.new }
{
    out.put(b"G1 Z");
    push_thousandths(out, z);
    push_feed(out, rates.travel_feed);
}

/// Appends a command of a temperature in degrees Celsius.
pub fn push_heat(out: &mut Printer, command: &[u8], degrees: u32)
    ensures { Adds (heat_line command.now degrees) out.old out.new }
{
    out.put(command);
    out.put(b" S");
    out.number(degrees);
    out.byte(b'\n');
}

// The comment in front of a layer.
/// Appends the comment with a layer's number.
pub fn push_layer_number(out: &mut Printer, layer: u32)
    ensures { Adds (number_line layer) out.old out.new }
{
    out.put(b"; layer ");
    out.number(layer);
    out.byte(b'\n');
}

/// Appends the comment in front of supports.
#[tactic(auto, unfolding(crate::specs::Gcode::supports_line))]
pub fn push_supports_line(out: &mut Printer)
    ensures { Adds supports_line out.old out.new }
{
    out.put(b"; supports\n");
}
