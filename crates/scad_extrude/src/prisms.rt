//! Prisms over outlines.
ghost use Rattle.std.specs.Prelude.{◌≡◌, ◌≤◌, ◌+ℤ◌, length, IfOk};
ghost use Rattle.scad_base.specs.Memory.{UnlessMemory};
ghost use Rattle.scad_solid.specs.Laws.{HoldInside};
ghost use Rattle.scad_shapes.specs.Faults.{is_memory};
ghost use Rattle.scad_shapes.specs.Rings.{solid_of_rings};
ghost use Rattle.scad_shapes.specs.Outline.{start_of};
ghost use Rattle.scad_shapes.specs.Laws.{IsUpright, placed_outline, placed_height};
ghost use Rattle.scad_extrude.specs.declared.count.FlatForm.TheVariants.{Linear};
ghost use Rattle.scad_extrude.specs.Count.{triangles_of};
ghost use Rattle.scad_extrude.specs.Linear.{linear_rings};

use scad_matrix::Matrix;
use scad_num::Num;
use scad_shapes::ShapeFault;
use scad_shapes::parts::{extent, prism};
use scad_solid::Triangles;
use std::alloc::Global;

/// The prism of this height over an outline, from the plane z = 0 upwards, or with half of its height below
/// it. CoordinateRange exactly where a placed coordinate is out of range.
pub fn linear(
    alloc: Global,
    ring: &[(Num, Num)],
    height: Num,
    center: bool,
    m: &Matrix,
) -> Result<Triangles, ShapeFault>
    requires { 3 ≤ length ring.now }
    ensures solid { UnlessMemory is_memory result (result ≡ solid_of_rings (linear_rings ring.now height center m.now)) }
    ensures count { IfOk result (λ t. length t ≡ triangles_of (Linear (length ring.now))) }
    ensures holds { IsUpright m.now → IfOk result (λ t. HoldInside (placed_outline m.now ring.now) (placed_height m.now (start_of height center +ℤ height)) (placed_height m.now (start_of height center)) t) }
{
    let (low, high) = extent(height, center);
    prism(alloc, m, ring, ring, low, high)
}
