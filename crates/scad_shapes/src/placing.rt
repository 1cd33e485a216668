//! Placed rings, and their solids.
ghost use Rattle.std.specs.Prelude.{◌≡◌, Ok, IsTrue};
ghost use Rattle.scad_base.specs.Memory.{UnlessMemory};
ghost use Rattle.scad_shapes.specs.Faults.{is_memory};
ghost use Rattle.scad_solid.specs.Stack.{stacked, are_alike, rings_in_range};
ghost use Rattle.scad_geom.specs.PointRange.{is_in_range};
ghost use Rattle.scad_matrix.specs.Matrix.{placed_point};
ghost use Rattle.scad_shapes.specs.Pushes.{Pushes};
ghost use Rattle.scad_shapes.specs.Rings.{placed_ring, ring_if_in_range};

use crate::fault::ShapeFault;
use scad_geom::Pt3;
use scad_matrix::Matrix;
use scad_num::Num;
use scad_solid::{Ring, Triangles, stack};
use std::alloc::Global;

/// The points of an outline at a height, placed.
pub(crate) fn place_ring(
    alloc: Global,
    m: &Matrix,
    z: Num,
    outline: &[(Num, Num)],
) -> Result<Ring, ShapeFault>
    ensures { UnlessMemory is_memory result (result ≡ ring_if_in_range (placed_ring m.now z outline.now)) }
{
    let mut ring = Vec::new(alloc);
    'points: for point in outline {
        let (x, y) = *point;
        push_placed(&mut ring, m, x, y, z)?;
    }
    Ok(Ring::from_vec(ring))
}

/// Adds a placed point. CoordinateRange exactly where a coordinate of it is out of range.
pub fn push_placed(out: &mut Vec<Pt3>, m: &Matrix, x: Num, y: Num, z: Num) -> Result<(), ShapeFault>
    ensures { Pushes is_in_range out.old.items (placed_point m.now x y z) out.new.items result }
{
    let Ok(point) = m.place(x, y, z) else {
        return Err(ShapeFault::CoordinateRange);
    };
    match out.push(point) {
        Ok(()) => Ok(()),
        Err(_) => Err(ShapeFault::Memory),
    }
}

/// The solid of rings in range.
pub(crate) fn solid(alloc: Global, rings: &[Ring]) -> Result<Triangles, ShapeFault>
    requires alike { IsTrue (are_alike rings.now) }
    requires in_range { IsTrue (rings_in_range rings.now) }
    ensures { UnlessMemory is_memory result (result ≡ Ok (stacked rings.now)) }
{
    match stack(alloc, rings) {
        Ok(solid) => Ok(solid),
        Err(_) => Err(ShapeFault::Memory),
    }
}
