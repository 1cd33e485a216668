//! How much filament a move takes.
ghost use Rattle.std.specs.Prelude.{◌≡◌, ◌*◌, ◌^◌, ◌<◌, ◌≤◌};
ghost use Rattle.scad_num.specs.Root.{root};
ghost use Rattle.gcode_text.specs.Limits.{width_limit, height_limit};
ghost use Rattle.gcode_text.specs.Amount.{length_of, move_volume, filament};

use crate::rates::Rates;
use scad_geom::Pt;

/// The volume of a straight move, in cubic micrometres.
#[tactic(auto, unfolding(crate::specs::Amount::move_volume))]
pub fn move_volume(rates: &Rates, from: Pt, to: Pt) -> u128
    requires width { rates.now.line_width ≤ width_limit }
    requires height { rates.now.layer_height ≤ height_limit }
    ensures value { result ≡ move_volume rates.now from to }
    ensures small { result ≤ 2 ^ 55 }
{
    u128::from(product(length(from, to), rates.line_width, rates.layer_height))
}

fn product(length: u64, width: u32, height: u32) -> u64
    requires length { length < 2 ^ 33 }
    requires width { width ≤ width_limit }
    requires height { height ≤ height_limit }
    ensures value { result ≡ length * width * height }
    ensures small { result ≤ 2 ^ 55 }
{
    length * u64::from(width) * u64::from(height)
}

#[tactic(auto, unfolding(crate::specs::Amount::length_of))]
fn length(from: Pt, to: Pt) -> u64
    ensures value { result ≡ length_of from to }
    ensures small { result < 2 ^ 33 }
{
    root(squared(to.x.abs_diff(from.x)) + squared(to.y.abs_diff(from.y)))
}

fn squared(n: u32) -> u128
    ensures value { result ≡ n * n }
    ensures small { result < 2 ^ 64 }
{
    u128::from(n) * u128::from(n)
}

// Real coordinates are small, and the root of a short number is the quicker one.
fn root(n: u128) -> u64
    requires { n < 2 ^ 65 }
    ensures value { result ≡ root n }
    ensures small { result < 2 ^ 33 }
{
    if n < 1 << 64 {
        (n as u64).isqrt()
    } else {
        n.isqrt() as u64
    }
}

/// The filament that a volume takes, in hundred-thousandths of a millimetre.
#[tactic(auto, unfolding(crate::specs::Amount::filament))]
pub fn filament(rates: &Rates, volume: u128) -> u128
    requires area { 1 ≤ rates.now.filament_area }
    requires volume { volume ≤ 2 ^ 100 }
    ensures { result ≡ filament rates.now volume }
{
    100 * volume / u128::from(rates.filament_area)
}
