//! Placed primitives.

ghost use Rattle.std.specs.Prelude.{◌≡◌, ◌<◌, ◌≤◌, ◌-◌, ◌^◌, min, length, IfOk, true};
ghost use Rattle.scad_shapes.specs.Limits.{triangle_limit};
ghost use Rattle.scad_shapes.specs.Count.{face_triangles};
ghost use Rattle.scad_base.specs.Memory.{UnlessMemory};
ghost use Rattle.scad_shapes.specs.Faults.{is_memory};
ghost use Rattle.scad_modules.specs.Primitive.{triangles_of, solid_of, is_primitive};
ghost use Rattle.scad_modules.specs.View.{primitive};

use crate::primitive::Primitive;
use scad_matrix::Matrix;
use scad_shapes::{Form, ShapeFault, cube, cylinder, polyhedron, sphere};
use scad_solid::{Face, Triangles};
use std::alloc::Global;

/// How many triangles faces have, 2^64 - 1 where they are more.
#[tactic(auto, using(crate::proofs::Faces::counts))]
fn face_triangles(faces: &[Face]) -> u64
    ensures { result ≡ min (face_triangles faces.now) (2 ^ 64 - 1) }
{
    let mut count = 0u64;
    'faces: for face in faces {
        count = count.saturating_add(face.as_slice().len().saturating_sub(2) as u64);
    }
    count
}

/// How many triangles the primitive has, 2^64 - 1 where they are more.
#[tactic(auto, using(crate::proofs::Faces::bounds))]
pub fn triangles_of(p: &Primitive) -> u64
    requires { is_primitive (primitive p.now) ≡ true }
    ensures { result ≡ min (triangles_of (primitive p.now)) (2 ^ 64 - 1) }
{
    match p {
        Primitive::Cube(_, _, _, _) => 12,
        Primitive::Sphere(_, n) => scad_shapes::triangles_of(&Form::Sphere(*n)),
        Primitive::Cylinder(_, _, _, n, _) => scad_shapes::triangles_of(&Form::Cylinder(*n)),
        Primitive::Polyhedron(_, faces) => face_triangles(faces),
    }
}

/// The solid of a primitive that is placed by a matrix.
#[tactic(auto, using(crate::proofs::Faces::bounds, crate::proofs::Faces::polyhedra))]
pub fn solid_of(alloc: Global, p: &Primitive, m: &Matrix) -> Result<Triangles, ShapeFault>
    requires primitive { is_primitive (primitive p.now) ≡ true }
    requires few { triangles_of (primitive p.now) ≤ triangle_limit }
    ensures solid { UnlessMemory is_memory result (result ≡ solid_of (primitive p.now) m.now) }
    ensures some { IfOk result (λ t. 0 < length t) }
{
    match p {
        Primitive::Cube(x, y, z, center) => cube(alloc, *x, *y, *z, *center, m),
        Primitive::Sphere(r, n) => sphere(alloc, *r, *n, m),
        Primitive::Cylinder(h, bottom, top, n, center) => {
            cylinder(alloc, *h, *bottom, *top, *n, *center, m)
        }
        Primitive::Polyhedron(points, faces) => polyhedron(alloc, points, faces, m),
    }
}
