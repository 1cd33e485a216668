//! Spheres.
ghost use Rattle.std.specs.Prelude.{◌≡◌, ◌<◌, ◌≤◌, [], pos, unsigned_abs, length, IfOk};
ghost use Rattle.scad_shapes.specs.Limits.{triangle_limit};
ghost use Rattle.scad_base.specs.Memory.{UnlessMemory};
ghost use Rattle.scad_shapes.specs.Faults.{is_memory};
ghost use Rattle.scad_shapes.specs.declared.count.Form.TheVariants.{Sphere};
ghost use Rattle.scad_shapes.specs.Count.{triangles_of};
ghost use Rattle.scad_shapes.specs.Outline.{sphere_rings, polar_angle};
ghost use Rattle.scad_shapes.specs.Rings.{sphere_ring, sphere_ring_at, sphere_rings_of, ring_if_in_range, solid_of_rings};
ghost use Rattle.scad_shapes.specs.Pushes.{Pushes, Collects, ring_in_range};

use crate::fault::ShapeFault;
use crate::outline::{circle, part_of};
use crate::placing::{place_ring, solid};
use scad_cos::{cos, sin};
use scad_matrix::Matrix;
use scad_num::Num;
use scad_solid::{Ring, Triangles};
use std::alloc::Global;

/// A sphere round the origin: rings of `n` vertices, `(n + 1) / 2` of them from the top downwards.
#[tactic(auto, using(crate::proofs::TriangleCount::sphere_count, scad_geom::proofs::Casts::casts))]
pub fn sphere(alloc: Global, r: Num, n: u32, m: &Matrix) -> Result<Triangles, ShapeFault>
    requires some { 3 ≤ n }
    requires few { n ≤ triangle_limit }
    ensures solid { UnlessMemory is_memory result (result ≡ solid_of_rings (sphere_rings_of r n m.now)) }
    ensures count { IfOk result (λ t. length t ≡ triangles_of (Sphere n)) }
{
    let rings = rings(alloc, r, n, m)?;
    solid(alloc, rings.as_slice())
}

fn rings(alloc: Global, r: Num, n: u32, m: &Matrix) -> Result<Vec<Ring>, ShapeFault>
    requires { n ≤ triangle_limit }
    ensures { Collects ring_in_range result (λ v. v.items) (sphere_rings_of r n m.now) }
{
    let count = (n + 1) / 2;
    let mut rings = Vec::new(alloc);
    'rings: for i in 0..count {
        match push_ring(alloc, &mut rings, r, n, m, i) {
            Ok(()) => {}
            Err(end) => return Err(end),
        }
    }
    Ok(rings)
}

fn push_ring(
    alloc: Global,
    out: &mut Vec<Ring>,
    r: Num,
    n: u32,
    m: &Matrix,
    i: u32,
) -> Result<(), ShapeFault>
    requires below { i < sphere_rings n }
    requires few { n ≤ triangle_limit }
    ensures { Pushes ring_in_range out.old.items (sphere_ring_at r n m.now i) out.new.items result }
{
    let ring = ring(alloc, r, n, m, polar_angle((n + 1) / 2, i))?;
    match out.push(ring) {
        Ok(()) => Ok(()),
        Err(_) => Err(ShapeFault::Memory),
    }
}

fn polar_angle(rings: u32, i: u32) -> i64
    requires below { i < rings }
    requires few { rings ≤ 100000 }
    ensures value { result ≡ pos (polar_angle rings i) }
    ensures small { unsigned_abs result ≤ 360000 }
{
    rounded_angle(u64::from(rings), u64::from(i)) as i64
}

fn rounded_angle(rings: u64, i: u64) -> u64
    requires below { i < rings }
    requires few { rings ≤ 100000 }
    ensures value { result ≡ polar_angle rings i }
    ensures small { result ≤ 360000 }
{
    (90_000 * (2 * i + 1) + rings / 2) / rings
}

// The placed ring at a polar angle.
fn ring(alloc: Global, r: Num, n: u32, m: &Matrix, angle: i64) -> Result<Ring, ShapeFault>
    requires few { n ≤ triangle_limit }
    requires angle { unsigned_abs angle ≤ 360000 }
    ensures { UnlessMemory is_memory result (result ≡ ring_if_in_range (sphere_ring r n m.now angle)) }
{
    let Ok(outline) = circle(alloc, part_of(r, sin(angle)), n) else {
        return Err(ShapeFault::Memory);
    };
    place_ring(alloc, m, part_of(r, cos(angle)), outline.as_slice())
}
