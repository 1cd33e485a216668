//! Layers of a file, each with its sides in an index.
ghost use Rattle.std.specs.Prelude.{◌≡◌, ◌≤◌, ◌/◌, All, IfOk, true, false, flat_map};
ghost use Rattle.std.specs.List.{Any, AllZip};
ghost use Rattle.scad_geom.specs.Limits.{coordinate_limit};
ghost use Rattle.scad_geom.specs.Within.{IsEdgeWithin};
ghost use Rattle.scad_geom.specs.Loop.{sides};
ghost use Rattle.gcode_text.specs.Limits.{width_limit};
ghost use Rattle.plan_verify.specs.Stays.{KeepsClear, from_above};
ghost use Rattle.plan_verify.specs.Index.{sides_in};
ghost use Rattle.plan_verify.specs.Fields.{AreSidesWithin, IsSound, IsFieldOf, IsInField, StaysInFields};
ghost use Rattle.plan_verify.specs.Limits.{IsMoveWithin};

use crate::index::{Tree, index_of, is_clear, turns};
use crate::trial::Trial;
use cli_read::CliLayer;
use gcode_text::Move;
use plan_sides::sides;
use scad_geom::{Edge, Pt};
use scad_ring::reach;
use std::alloc::{AllocError, Global};

/// A layer: its height, and its sides.
#[derive(Drop)]
pub struct Field {
    pub z: u32,
    pub sides: Tree,
}

/// The layers' fields, in their order.
pub fn fields_of(alloc: Global, layers: &[CliLayer]) -> Result<Vec<Field>, AllocError>
    requires { AreSidesWithin layers.now }
    ensures { IfOk result (λ v. AllZip IsFieldOf layers.now v.items) }
{
    let mut fields = Vec::new(alloc);
    'layers: for layer in layers {
        let field = field_of(alloc, layer)?;
        fields.push(field)?;
    }
    Ok(fields)
}

fn field_of(alloc: Global, layer: &CliLayer) -> Result<Field, AllocError>
    requires { All (IsEdgeWithin coordinate_limit) (flat_map sides layer.now.loops) }
    ensures { IfOk result (λ f. IsFieldOf layer.now f) }
{
    let edges = sides(alloc, layer.loops.as_slice())?;
    let sides = index_of(alloc, &edges)?;
    Ok(Field { z: layer.z, sides })
}

/// Whether a move along an edge keeps the clearance of half the width of a line from the sides, and they wind round it.
fn keeps_clear(field: &Field, line: Edge, line_width: u32) -> bool
    requires field { IsSound field.now }
    requires line { IsEdgeWithin coordinate_limit line }
    requires least { 100 ≤ line_width }
    requires most { line_width ≤ width_limit }
    ensures keeps { result ≡ true → KeepsClear (sides_in field.now.sides) (line_width / 2) line }
    ensures fails { result ≡ false → KeepsClear (sides_in field.now.sides) (line_width / 2) line → ⊥ }
{
    let c = line_width / 2;
    let trial = Trial::of(line, c - 1, reach(c) - 2);
    if !is_clear(&field.sides, &trial) {
        return false;
    }
    if turns(&field.sides, line.a) == 0 {
        return false;
    }
    true
}

/// Whether a move is level, and stays inside some of the layers at its height.
pub fn stays(fields: &[Field], m: &Move, line_width: u32) -> bool
    requires fields { All IsSound fields.now }
    requires least { 100 ≤ line_width }
    requires most { line_width ≤ width_limit }
    requires within { IsMoveWithin m.now }
    ensures stays { result ≡ true → StaysInFields fields.now line_width m.now }
    ensures fails { result ≡ false → StaysInFields fields.now line_width m.now → ⊥ }
{
    if m.from.z == m.to.z {
        is_in_some(fields, m, line_width)
    } else {
        false
    }
}

fn is_in_some(fields: &[Field], m: &Move, line_width: u32) -> bool
    requires fields { All IsSound fields.now }
    requires least { 100 ≤ line_width }
    requires most { line_width ≤ width_limit }
    requires within { IsMoveWithin m.now }
    ensures stays { result ≡ true → Any (IsInField line_width m.now) fields.now }
    ensures fails { result ≡ false → Any (IsInField line_width m.now) fields.now → ⊥ }
{
    'fields: for field in fields {
        if is_in(field, m, line_width) {
            return true;
        }
    }
    false
}

fn is_in(field: &Field, m: &Move, line_width: u32) -> bool
    requires field { IsSound field.now }
    requires least { 100 ≤ line_width }
    requires most { line_width ≤ width_limit }
    requires within { IsMoveWithin m.now }
    ensures stays { result ≡ true → IsInField line_width m.now field.now }
    ensures fails { result ≡ false → IsInField line_width m.now field.now → ⊥ }
{
    if i64::from(field.z) == i64::from(m.from.z) {
        keeps_clear(field, from_above(m), line_width)
    } else {
        false
    }
}

// A move as it is seen from above.
fn from_above(m: &Move) -> Edge
    ensures { result ≡ from_above m.now }
{
    Edge {
        a: Pt {
            x: m.from.x,
            y: m.from.y,
        },
        b: Pt {
            x: m.to.x,
            y: m.to.y,
        },
    }
}
