//! The lines of a layer.
ghost use Rattle.std.specs.Prelude.{◌≡◌, ◌+◌, ◌*◌, ◌^◌, ◌≤◌, length, min, nat_lt};
ghost use Rattle.std.specs.List.{sum_by};
ghost use Rattle.text_scan.specs.Printing.{Adds};
ghost use Rattle.gcode_text.specs.Limits.{width_limit, height_limit};
ghost use Rattle.gcode_text.specs.Amount.{paths_volume};
ghost use Rattle.gcode_text.specs.Gcode.{layer_text, paths_text, supports_text};

use crate::path::push_path;
use crate::rates::Rates;
use crate::word::{push_height, push_layer_number, push_supports_line};
use scad_geom::Path;
use text_scan::Printer;

/// Whether there are fewer than 2^32 points in all paths together.
pub fn are_few(paths: &[Path]) -> bool
    ensures { result ≡ nat_lt (sum_by length paths.now) (2 ^ 32) }
{
    points_of(paths) < 1 << 32
}

// The number of points in all paths together, or 2^32 where there are more.
fn points_of(paths: &[Path]) -> u64
    ensures { result ≡ min (sum_by length paths.now) (2 ^ 32) }
{
    let mut points = 0;
    'paths: for path in paths {
        points = (points + path.as_slice().len() as u64).min(1 << 32);
    }
    points
}

/// Appends the lines of a layer: its number, its height in thousandths of a millimetre, its paths. It gives the
/// volume with that of its moves.
pub fn push_layer(
    out: &mut Printer,
    layer: u32,
    paths: &[Path],
    rates: &Rates,
    volume: u128,
) -> u128
    requires width { rates.now.line_width ≤ width_limit }
    requires height { rates.now.layer_height ≤ height_limit }
    requires area { 1 ≤ rates.now.filament_area }
    requires fits { volume + 2 ^ 55 * sum_by length paths.now ≤ 2 ^ 100 }
    ensures text { Adds (layer_text rates.now volume layer paths.now) out.old out.new }
    ensures volume { result ≡ volume + paths_volume rates.now paths.now }
{
    push_layer_number(out, layer);
    push_height(out, rates, upper_surface(layer, rates.layer_height));
    push_paths(out, paths, rates, volume)
}

/// Appends the lines of supports behind a layer's: a comment and their paths, and nothing where there are none. It
/// gives the volume with that of their moves.
#[tactic(auto, unfolding(crate::specs::Amount::paths_volume))]
pub fn push_supports(out: &mut Printer, paths: &[Path], rates: &Rates, volume: u128) -> u128
    requires width { rates.now.line_width ≤ width_limit }
    requires height { rates.now.layer_height ≤ height_limit }
    requires area { 1 ≤ rates.now.filament_area }
    requires fits { volume + 2 ^ 55 * sum_by length paths.now ≤ 2 ^ 100 }
    ensures text { Adds (supports_text rates.now volume paths.now) out.old out.new }
    ensures volume { result ≡ volume + paths_volume rates.now paths.now }
{
    match paths {
        [] => volume,
        [_, ..] => {
            push_supports_line(out);
            push_paths(out, paths, rates, volume)
        }
    }
}

// The height of a layer's upper surface.
fn upper_surface(layer: u32, height: u32) -> u64
    requires { height ≤ height_limit }
    ensures { result ≡ (layer + 1) * height }
{
    (u64::from(layer) + 1) * u64::from(height)
}

fn push_paths(out: &mut Printer, paths: &[Path], rates: &Rates, volume: u128) -> u128
    requires width { rates.now.line_width ≤ width_limit }
    requires height { rates.now.layer_height ≤ height_limit }
    requires area { 1 ≤ rates.now.filament_area }
    requires fits { volume + 2 ^ 55 * sum_by length paths.now ≤ 2 ^ 100 }
    ensures text { Adds (paths_text rates.now volume paths.now) out.old out.new }
    ensures volume { result ≡ volume + paths_volume rates.now paths.now }
{
    let mut sum = volume;
    'paths: for path in paths {
        sum = push_path(out, rates, sum, path.as_slice());
    }
    sum
}
