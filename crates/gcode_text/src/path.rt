//! The lines of paths.
ghost use Rattle.std.specs.Prelude.{◌≡◌, ◌+◌, ◌*◌, ◌^◌, length, ◌≤◌};
ghost use Rattle.text_scan.specs.Printing.{Adds};
ghost use Rattle.gcode_text.specs.Limits.{width_limit, height_limit};
ghost use Rattle.gcode_text.specs.Amount.{move_volume, moves_volume, path_volume, filament};
ghost use Rattle.gcode_text.specs.Gcode.{print_line, moves_text, path_text};

use crate::amount::{filament, move_volume};
use crate::rates::Rates;
use crate::word::{push_print, push_travel};
use scad_geom::Pt;
use text_scan::Printer;

// A travel to the first point, and a move to each further one.
/// Appends the lines of a path: a travel to its first point, then its moves. It gives the volume with theirs.
#[tactic(auto, unfolding(crate::specs::Gcode::path_text, crate::specs::Amount::path_volume))]
pub fn push_path(out: &mut Printer, rates: &Rates, volume: u128, points: &[Pt]) -> u128
    requires width { rates.now.line_width ≤ width_limit }
    requires height { rates.now.layer_height ≤ height_limit }
    requires area { 1 ≤ rates.now.filament_area }
    requires fits { volume + 2 ^ 55 * length points.now ≤ 2 ^ 100 }
    ensures text { Adds (path_text rates.now volume points.now) out.old out.new }
    ensures volume { result ≡ volume + path_volume rates.now points.now }
    ensures small { result ≤ volume + 2 ^ 55 * length points.now }
{
    match points {
        [] => volume,
        [first, rest @ ..] => {
            push_travel(out, rates, *first);
            push_moves(out, rates, volume, *first, rest)
        }
    }
}

// The moves from a point through further ones.
fn push_moves(out: &mut Printer, rates: &Rates, volume: u128, first: Pt, rest: &[Pt]) -> u128
    requires width { rates.now.line_width ≤ width_limit }
    requires height { rates.now.layer_height ≤ height_limit }
    requires area { 1 ≤ rates.now.filament_area }
    requires fits { volume + 2 ^ 55 * length rest.now ≤ 2 ^ 100 }
    ensures text { Adds (moves_text rates.now volume first rest.now) out.old out.new }
    ensures volume { result ≡ volume + moves_volume rates.now first rest.now }
    ensures small { result ≤ volume + 2 ^ 55 * length rest.now }
{
    let mut sum = volume;
    let mut from = first;
    'points: for to in rest {
        sum = push_move(out, rates, sum, from, *to);
        from = *to;
    }
    sum
}

fn push_move(out: &mut Printer, rates: &Rates, volume: u128, from: Pt, to: Pt) -> u128
    requires width { rates.now.line_width ≤ width_limit }
    requires height { rates.now.layer_height ≤ height_limit }
    requires area { 1 ≤ rates.now.filament_area }
    requires fits { volume + 2 ^ 55 ≤ 2 ^ 100 }
    ensures text { Adds (print_line rates.now to (filament rates.now (volume + move_volume rates.now from to)))
        out.old out.new }
    ensures volume { result ≡ volume + move_volume rates.now from to }
    ensures small { result ≤ volume + 2 ^ 55 }
{
    let sum = volume + move_volume(rates, from, to);
    push_print(out, rates, to, filament(rates, sum));
    sum
}
