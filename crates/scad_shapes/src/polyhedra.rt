//! Polyhedra.
ghost use Rattle.std.specs.Prelude.{◌≡◌, true, length, map, IfOk, IsTrue};
ghost use Rattle.scad_base.specs.Memory.{UnlessMemory};
ghost use Rattle.scad_shapes.specs.Faults.{is_memory};
ghost use Rattle.scad_shapes.specs.declared.count.Form.TheVariants.{Polyhedron};
ghost use Rattle.scad_shapes.specs.Count.{triangles_of, face_triangles};
ghost use Rattle.std.specs.List.{list_all};
ghost use Rattle.scad_geom.specs.PointRange.{is_in_range};
ghost use Rattle.scad_solid.specs.Solid.{fans, corners};
ghost use Rattle.scad_shapes.specs.Pushes.{Collects};
ghost use Rattle.scad_shapes.specs.Polyhedron.{placed_points, name_points, if_closed, polyhedron_of};

use crate::fault::ShapeFault;
use crate::placing::push_placed;
use scad_geom::Pt3;
use scad_matrix::Matrix;
use scad_num::Num;
use scad_solid::{Face, SolidFault, Triangles};
use std::alloc::Global;

/// The solid that faces over points bound, each face clockwise as seen from outside and split into a
/// fan from its first point. Points out of range are refused first, then open surfaces.
pub fn polyhedron(
    alloc: Global,
    points: &[(Num, Num, Num)],
    faces: &[Face],
    m: &Matrix,
) -> Result<Triangles, ShapeFault>
    requires { IsTrue (name_points (length points.now) faces.now) }
    ensures solid { UnlessMemory is_memory result (result ≡ polyhedron_of points.now faces.now m.now) }
    ensures count { IfOk result (λ t. length t ≡ triangles_of (Polyhedron (face_triangles faces.now))) }
{
    let placed = place(alloc, points, m)?;
    bounded(alloc, placed.as_slice(), faces)
}

// The solid that faces over points in range bound.
fn bounded(alloc: Global, points: &[Pt3], faces: &[Face]) -> Result<Triangles, ShapeFault>
    requires in_range { list_all is_in_range points.now ≡ true }
    requires named { IsTrue (name_points (length points.now) faces.now) }
    ensures solid { UnlessMemory is_memory result (result ≡ if_closed (fans (map (corners points.now) faces.now))) }
    ensures count { IfOk result (λ t. length t ≡ face_triangles faces.now) }
{
    match Triangles::from_faces(alloc, points, faces) {
        Ok(solid) => Ok(solid),
        Err(SolidFault::NotClosed) => Err(ShapeFault::NotClosed),
        Err(SolidFault::Memory) => Err(ShapeFault::Memory),
        Err(SolidFault::BadIndex(_)) => unreachable!(),
        Err(SolidFault::CoordinateRange) => unreachable!(),
    }
}

fn place(alloc: Global, points: &[(Num, Num, Num)], m: &Matrix) -> Result<Vec<Pt3>, ShapeFault>
    ensures { Collects is_in_range result (λ v. v.items) (placed_points m.now points.now) }
{
    let mut placed = Vec::new(alloc);
    'points: for point in points {
        let (x, y, z) = *point;
        push_placed(&mut placed, m, x, y, z)?;
    }
    Ok(placed)
}
