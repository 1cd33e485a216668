//! The lines of infill that have runs.
ghost use Rattle.std.specs.Prelude.{◌≡◌, ◌≤◌, unsigned_abs, IfOk, OnOk, All};
ghost use Rattle.scad_geom.specs.Limits.{point_limit};
ghost use Rattle.scad_geom.specs.Within.{IsWithin};
ghost use Rattle.scad_words.specs.Settings.{AreInRange};
ghost use Rattle.plan_layer.specs.Infill as spec;

use plan_infill::{Line, Run, extent_of, multiple_from, runs};
use plan_sides::sides;
use scad_geom::Loop;
use scad_words::Settings;
use std::alloc::{AllocError, Global};
use std::marker::Model;

/// The coordinate of a line of infill, and its runs.
#[derive(Drop)]
pub(crate) struct LineRuns {
    at: i32,
    runs: Vec<Run>,
}

impl Model for LineRuns {
    ghost use Rattle.plan_layer.specs.Infill.{LineRuns};

    ghost Value = { LineRuns };

    ghost view = { λ l. record { at = l.at; runs = l.runs.items } };
}

impl LineRuns {
    pub(crate) fn at(&self) -> i32
        ensures { result ≡ self.now.at }
    {
        self.at
    }

    pub(crate) fn runs(&self) -> &[Run]
        ensures { result.now ≡ self.now.runs }
    {
        self.runs.as_slice()
    }
}

/// The lines of a layer's infill that have runs, with all their runs, upwards or to the right.
pub(crate) fn filled_lines(
    alloc: Global,
    outlines: &[Loop],
    layer: u32,
    settings: &Settings,
) -> Result<Vec<LineRuns>, AllocError>
    requires within { All (λ l. All (IsWithin point_limit) l) outlines.now }
    requires settings { AreInRange settings.now }
    ensures { IfOk result (λ v. spec.AreFilled outlines.now layer settings.now v.items) }
{
    let mut lines = Vec::new(alloc);
    let spacing = settings.infill_spacing;
    if spacing == 0 {
        return Ok(lines);
    }
    let extent = extent_of(&sides(alloc, outlines)?, has_rows(layer));
    let high = extent.high as i64;
    let mut at = multiple_from(extent.low, spacing);
    'lines: while at <= high {
        push_filled(alloc, &mut lines, outlines, layer, settings, at as i32)?;
        at += spacing as i64;
    }
    Ok(lines)
}

// Adds the line at a coordinate where it has runs.
fn push_filled(
    alloc: Global,
    lines: &mut Vec<LineRuns>,
    outlines: &[Loop],
    layer: u32,
    settings: &Settings,
    at: i32,
) -> Result<(), AllocError>
    requires within { All (λ l. All (IsWithin point_limit) l) outlines.now }
    requires settings { AreInRange settings.now }
    requires line { unsigned_abs at ≤ point_limit }
    ensures { OnOk result (spec.AddsLine outlines.now layer settings.now at lines.old.items lines.new.items) }
{
    let depth = settings.walls * settings.line_width;
    let line = line_at(layer, at);
    let found = runs(alloc, outlines, depth, line, settings.line_width)?;
    if !found.is_empty() {
        lines.push(LineRuns { at, runs: found })?;
    }
    Ok(())
}

/// The line of a layer at a coordinate.
pub(crate) fn line_at(layer: u32, at: i32) -> Line
    ensures { result ≡ spec.line_at layer at }
{
    if has_rows(layer) {
        Line::Row(at)
    } else {
        Line::Column(at)
    }
}

// Whether the lines of a layer are rows.
fn has_rows(layer: u32) -> bool
    ensures { result ≡ spec.has_rows layer }
{
    layer % 2 == 0
}
