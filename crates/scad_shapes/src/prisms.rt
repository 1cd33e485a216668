//! Cubes and cylinders.
ghost use Rattle.std.specs.Prelude.{◌≡◌, ◌≤◌, ◌+ℤ◌, length, IfOk};
ghost use Rattle.scad_shapes.specs.Limits.{triangle_limit};
ghost use Rattle.scad_base.specs.Memory.{UnlessMemory};
ghost use Rattle.scad_shapes.specs.Faults.{is_memory};
ghost use Rattle.scad_solid.specs.Laws.{HoldBetween, HoldInside};
ghost use Rattle.scad_shapes.specs.declared.count.Form.TheVariants.{Cube, Cylinder};
ghost use Rattle.scad_shapes.specs.Count.{triangles_of, prism_triangles};
ghost use Rattle.scad_shapes.specs.Rings.{two_rings, cube_rings, cylinder_rings, solid_of_rings};
ghost use Rattle.scad_shapes.specs.Outline.{start_of, circle};
ghost use Rattle.scad_shapes.specs.Laws.{IsDiagonal, IsUpright, first_corner, last_corner, placed_outline, placed_height};

use crate::extent::extent;
use crate::fault::ShapeFault;
use crate::outline::{circle, rectangle};
use crate::placing::{place_ring, solid};
use scad_matrix::Matrix;
use scad_num::Num;
use scad_solid::Triangles;
use std::alloc::Global;

/// A cube of these sizes, from the origin upwards or round it.
pub fn cube(
    alloc: Global,
    x: Num,
    y: Num,
    z: Num,
    center: bool,
    m: &Matrix,
) -> Result<Triangles, ShapeFault>
    ensures solid { UnlessMemory is_memory result (result ≡ solid_of_rings (cube_rings x y z center m.now)) }
    ensures count { IfOk result (λ t. length t ≡ triangles_of Cube) }
    ensures holds { IsDiagonal m.now → IfOk result (λ t. HoldBetween (first_corner x y z center m.now) (last_corner x y z center m.now) t) }
{
    let ring = rectangle(x, y, center);
    let (low, high) = extent(z, center);
    prism(alloc, m, &ring, &ring, low, high)
}

/// A cylinder of this height, with the radii of its bottom and its top, each circle of `n` vertices.
/// Where it is centred it is so along z alone.
pub fn cylinder(
    alloc: Global,
    h: Num,
    r1: Num,
    r2: Num,
    n: u32,
    center: bool,
    m: &Matrix,
) -> Result<Triangles, ShapeFault>
    requires some { 3 ≤ n }
    requires few { n ≤ triangle_limit }
    ensures solid { UnlessMemory is_memory result (result ≡ solid_of_rings (cylinder_rings h r1 r2 n center m.now)) }
    ensures count { IfOk result (λ t. length t ≡ triangles_of (Cylinder n)) }
    ensures holds { IsUpright m.now → r1 ≡ r2 → IfOk result (λ t. HoldInside (placed_outline m.now (circle r1 n)) (placed_height m.now (start_of h center +ℤ h)) (placed_height m.now (start_of h center)) t) }
{
    let Ok(bottom) = circle(alloc, r1, n) else {
        return Err(ShapeFault::Memory);
    };
    let Ok(top) = circle(alloc, r2, n) else {
        return Err(ShapeFault::Memory);
    };
    let (low, high) = extent(h, center);
    prism(alloc, m, bottom.as_slice(), top.as_slice(), low, high)
}

/// The solid between an outline at a lower and one at an upper height.
#[tactic(auto, using(crate::proofs::TriangleCount::prism_count, scad_geom::proofs::Casts::casts))]
pub fn prism(
    alloc: Global,
    m: &Matrix,
    bottom: &[(Num, Num)],
    top: &[(Num, Num)],
    low: Num,
    high: Num,
) -> Result<Triangles, ShapeFault>
    requires alike { length bottom.now ≡ length top.now }
    requires some { 3 ≤ length top.now }
    ensures solid { UnlessMemory is_memory result (result ≡ solid_of_rings (two_rings m.now bottom.now top.now low high)) }
    ensures count { IfOk result (λ t. length t ≡ prism_triangles (length top.now)) }
{
    let upper = place_ring(alloc, m, high, top)?;
    let lower = place_ring(alloc, m, low, bottom)?;
    solid(alloc, &[upper, lower])
}
