//! Random outlines, many of which cross themselves.
ghost use Rattle.std.specs.Prelude.{◌<◌, ◌≤◌, IfOk, All, unsigned_abs};
ghost use Rattle.scad_geom.specs.Limits.{point_limit, coordinate_limit};
ghost use Rattle.scad_geom.specs.Within.{IsWithin};

use crate::dice::Dice;
use scad_geom::Loop;
use std::alloc::{AllocError, Global};

/// An outline of three to six points, which may cross itself.
pub fn roll_outline(
    alloc: Global,
    dice: &mut Dice,
    least: i32,
    side: u32,
) -> Result<Loop, AllocError>
    requires some { 0 < side }
    requires side { side ≤ 10000 }
    requires least { unsigned_abs least ≤ 10000 }
    ensures points { IfOk result (λ l. All (IsWithin point_limit) l) }
    ensures coordinates { IfOk result (λ l. All (IsWithin coordinate_limit) l) }
{
    let mut points = Vec::new(alloc);
    let count = 3 + dice.roll(4);
    'points: for _i in 0..count {
        points.push(dice.roll_point(least, side))?;
    }
    Ok(Loop::from_vec(points))
}

/// One to three outlines of three to six points each.
pub fn roll_outlines(
    alloc: Global,
    dice: &mut Dice,
    least: i32,
    side: u32,
) -> Result<Vec<Loop>, AllocError>
    requires some { 0 < side }
    requires side { side ≤ 10000 }
    requires least { unsigned_abs least ≤ 10000 }
    ensures points { IfOk result (λ v. All (λ l. All (IsWithin point_limit) l) v.items) }
    ensures coordinates { IfOk result (λ v. All (λ l. All (IsWithin coordinate_limit) l) v.items) }
{
    let mut outlines = Vec::new(alloc);
    let count = 1 + dice.roll(3);
    'outlines: for _i in 0..count {
        outlines.push(roll_outline(alloc, dice, least, side)?)?;
    }
    Ok(outlines)
}
