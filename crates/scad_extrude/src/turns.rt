//! Outlines turned round the z axis.
ghost use Rattle.std.specs.Prelude.{◌≡◌, ◌<◌, ◌≤◌, [], Ok, unsigned_abs, length, IfOk, IsTrue};
ghost use Rattle.scad_shapes.specs.Limits.{triangle_limit};
ghost use Rattle.scad_base.specs.Memory.{UnlessMemory};
ghost use Rattle.scad_geom.specs.PointRange.{is_in_range};
ghost use Rattle.scad_num.specs.Number.{one};
ghost use Rattle.scad_solid.specs.Stack.{are_alike, rings_in_range};
ghost use Rattle.scad_solid.specs.Wrap.{wrapped};
ghost use Rattle.scad_shapes.specs.Faults.{is_memory};
ghost use Rattle.scad_shapes.specs.Pushes.{Pushes, Collects, ring_in_range};
ghost use Rattle.scad_shapes.specs.Rings.{ring_if_in_range};
ghost use Rattle.scad_extrude.specs.declared.count.FlatForm.TheVariants.{Turned};
ghost use Rattle.scad_extrude.specs.Count.{triangles_of};
ghost use Rattle.scad_extrude.specs.Revolution.{turned_point, turned_ring, turned_ring_at, turned_rings, turned_of};

use scad_cos::{cos, sin, vertex_angle};
use scad_geom::Pt3;
use scad_matrix::Matrix;
use scad_num::Num;
use scad_shapes::ShapeFault;
use scad_shapes::parts::{part_of, push_placed};
use scad_solid::{Ring, Triangles, wrap};
use std::alloc::Global;

/// The solid of an outline, x outwards and y upwards, in `n` turns round the z axis. CoordinateRange exactly
/// where a placed coordinate is out of range.
#[tactic(auto, using(crate::proofs::TriangleCount::turned_count, scad_geom::proofs::Casts::casts))]
pub fn turned(
    alloc: Global,
    ring: &[(Num, Num)],
    n: u32,
    m: &Matrix,
) -> Result<Triangles, ShapeFault>
    requires { n ≤ triangle_limit }
    ensures solid { UnlessMemory is_memory result (result ≡ turned_of ring.now n m.now) }
    ensures count { IfOk result (λ t. length t ≡ triangles_of (Turned (length ring.now) n)) }
{
    let rings = turns(alloc, ring, n, m)?;
    solid(alloc, rings.as_slice())
}

fn solid(alloc: Global, rings: &[Ring]) -> Result<Triangles, ShapeFault>
    requires alike { IsTrue (are_alike rings.now) }
    requires in_range { IsTrue (rings_in_range rings.now) }
    ensures { UnlessMemory is_memory result (result ≡ Ok (wrapped rings.now)) }
{
    match wrap(alloc, rings) {
        Ok(solid) => Ok(solid),
        Err(_) => Err(ShapeFault::Memory),
    }
}

fn turns(alloc: Global, ring: &[(Num, Num)], n: u32, m: &Matrix) -> Result<Vec<Ring>, ShapeFault>
    requires { n ≤ triangle_limit }
    ensures { Collects ring_in_range result (λ v. v.items) (turned_rings ring.now n m.now) }
{
    let mut rings = Vec::new(alloc);
    'turns: for j in 0..n {
        match push_turn(alloc, &mut rings, ring, n, m, j) {
            Ok(()) => {}
            Err(end) => return Err(end),
        }
    }
    Ok(rings)
}

fn push_turn(
    alloc: Global,
    out: &mut Vec<Ring>,
    ring: &[(Num, Num)],
    n: u32,
    m: &Matrix,
    j: u32,
) -> Result<(), ShapeFault>
    requires below { j < n }
    requires few { n ≤ triangle_limit }
    ensures { Pushes ring_in_range out.old.items (turned_ring_at ring.now n m.now j) out.new.items result }
{
    let angle = vertex_angle(i64::from(j), i64::from(n));
    let turn = turn(alloc, m, number(cos(angle)), number(sin(angle)), ring)?;
    match out.push(turn) {
        Ok(()) => Ok(()),
        Err(_) => Err(ShapeFault::Memory),
    }
}

fn number(millionths: i64) -> Num
    requires { unsigned_abs millionths ≤ one }
    ensures { result ≡ millionths }
{
    Num::within(millionths)
}

// The placed outline in a turn whose angle has this cosine and this sine.
fn turn(
    alloc: Global,
    m: &Matrix,
    cosine: Num,
    sine: Num,
    ring: &[(Num, Num)],
) -> Result<Ring, ShapeFault>
    requires cosine { unsigned_abs cosine ≤ one }
    requires sine { unsigned_abs sine ≤ one }
    ensures { UnlessMemory is_memory result (result ≡ ring_if_in_range (turned_ring m.now cosine sine ring.now)) }
{
    let mut turn = Vec::new(alloc);
    'points: for point in ring {
        let (x, y) = *point;
        push_turned(&mut turn, m, cosine, sine, x, y)?;
    }
    Ok(Ring::from_vec(turn))
}

// The placed point of an outline in such a turn.
fn push_turned(
    out: &mut Vec<Pt3>,
    m: &Matrix,
    cosine: Num,
    sine: Num,
    x: Num,
    y: Num,
) -> Result<(), ShapeFault>
    requires cosine { unsigned_abs cosine ≤ one }
    requires sine { unsigned_abs sine ≤ one }
    ensures { Pushes is_in_range out.old.items (turned_point m.now cosine sine (x, y)) out.new.items result }
{
    let across = part_of(x, cosine.millionths());
    let along = part_of(x, sine.millionths());
    push_placed(out, m, across, along, y)
}
