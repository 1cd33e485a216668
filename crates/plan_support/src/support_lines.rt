//! The stretches of support lines that outlines wind round.
ghost use Rattle.std.specs.Prelude.{◌≤◌, unsigned_abs, IfOk, OnOk, All};
ghost use Rattle.scad_geom.specs.Limits.{coordinate_limit};
ghost use Rattle.scad_geom.specs.Within.{IsWithin};
ghost use Rattle.plan_support.specs.Rows.{AreRows};
ghost use Rattle.plan_support.specs.Spans.{AreSpans, AddsSpans};

use crate::rows::Rows;
use plan_infill::{Line, extent_of, multiple_from, runs};
use plan_sides::sides;
use scad_geom::Loop;
use std::alloc::{AllocError, Global};

/// On each support line, at the whole multiples of the spacing, the maximal stretches of whole points that outlines wind
/// round: a row for each line that has some, upwards.
///
/// The time is that of the sides once for each line between the least and the greatest height.
pub fn spans(alloc: Global, outlines: &[Loop], spacing: u32) -> Result<Rows, AllocError>
    requires within { All (λ l. All (IsWithin coordinate_limit) l) outlines.now }
    requires spacing { 500 ≤ spacing }
    ensures spans { IfOk result (AreSpans outlines.now spacing) }
    ensures rows { IfOk result AreRows }
{
    let mut rows = Rows::new(alloc);
    let extent = extent_of(&sides(alloc, outlines)?, true);
    let high = extent.high as i64;
    let mut y = multiple_from(extent.low, spacing);
    'lines: while y <= high {
        push_spans(alloc, &mut rows, outlines, y as i32)?;
        y += spacing as i64;
    }
    Ok(rows)
}

// Adds the row at a height, where it has runs.
fn push_spans(alloc: Global, rows: &mut Rows, outlines: &[Loop], y: i32) -> Result<(), AllocError>
    requires within { All (λ l. All (IsWithin coordinate_limit) l) outlines.now }
    requires line { unsigned_abs y ≤ coordinate_limit }
    ensures { OnOk result (AddsSpans outlines.now y rows.old rows.new) }
{
    // No point comes nearer than 0 to a side, so deep is wound round.
    let found = runs(alloc, outlines, 0, Line::Row(y), 0)?;
    if !found.is_empty() {
        rows.push(y, &found)?;
    }
    Ok(())
}
