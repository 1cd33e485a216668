//! Random points of a grid.
ghost use Rattle.std.specs.Prelude.{◌<◌, ◌≤◌, unsigned_abs};
ghost use Rattle.scad_geom.specs.Limits.{coordinate_limit};
ghost use Rattle.scad_geom.specs.Within.{IsWithin};

use sample_dice::Dice;
use scad_geom::Pt;

// The coordinates along a side of so many points: from -500,000 micrometres upwards, 1, 7 or 100,000 apart, or from
// 1,000,000 downwards, 1 or 200,000 apart.
fn roll_coordinate(dice: &mut Dice, side: u32, places: u32) -> i32
    requires some { 0 < side }
    requires few { side ≤ 10 }
    ensures { unsigned_abs result ≤ coordinate_limit }
{
    let k = dice.roll(side) as i32;
    match places {
        0 => k - 500_000,
        1 => k * 7 - 500_000,
        2 => k * 100_000 - 500_000,
        3 => 1_000_000 - k,
        _ => 1_000_000 - k * 200_000,
    }
}

/// A point of a grid of so many points a side, at places of the five kinds from 0 on; x is rolled first.
pub(crate) fn roll_point(dice: &mut Dice, side: u32, places: u32) -> Pt
    requires some { 0 < side }
    requires few { side ≤ 10 }
    ensures { IsWithin coordinate_limit result }
{
    let x = roll_coordinate(dice, side, places);
    let y = roll_coordinate(dice, side, places);
    Pt { x, y }
}
