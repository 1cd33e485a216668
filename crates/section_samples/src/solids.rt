//! Solids of the samples.
ghost use Rattle.std.specs.Prelude.{◌≡◌, IfOk};

use crate::placings::number;
use scad_matrix::Matrix;
use scad_shapes::{ShapeFault, cube, cylinder, polyhedron, sphere};
use scad_solid::{Face, Triangles};
use std::alloc::{AllocError, Global};

/// A cube, a sphere, a cone with two radii, a cone on its point, a pyramid, a cube without width, a cylinder without
/// width, and flat cubes that end just below and just above the plane of layer 0.
pub(crate) fn solid(alloc: Global, i: u32, m: &Matrix) -> Result<Triangles, ShapeFault> {
    match i {
        0 => cube(alloc, number(7_500), number(11_333), number(6_001), true, m),
        1 => sphere(alloc, number(5_000), 9, m),
        2 => cylinder(
            alloc,
            number(8_000),
            number(4_000),
            number(1_500),
            7,
            true,
            m,
        ),
        3 => cylinder(alloc, number(3_000), number(0), number(6_000), 5, false, m),
        4 => pyramid(alloc, m),
        5 => cube(alloc, number(0), number(5_000), number(3_000), false, m),
        6 => cylinder(alloc, number(3_000), number(0), number(0), 4, false, m),
        7 => cube(alloc, number(3_000), number(4_000), number(125), false, m),
        _ => cube(alloc, number(3_000), number(4_000), number(126), false, m),
    }
}

fn pyramid(alloc: Global, m: &Matrix) -> Result<Triangles, ShapeFault> {
    let (l, r, top) = (number(-4_000), number(4_000), number(7_777));
    let o = number(0);
    let points = [(l, l, o), (r, l, o), (r, r, o), (l, r, o), (o, o, top)];
    let sides = [
        [0, 1, 2],
        [0, 2, 3],
        [1, 0, 4],
        [2, 1, 4],
        [3, 2, 4],
        [0, 3, 4],
    ];
    let Ok(faces) = faces(alloc, &sides) else {
        return Err(ShapeFault::Memory);
    };
    polyhedron(alloc, &points, faces.as_slice(), m)
}

fn faces(alloc: Global, all: &[[u32; 3]]) -> Result<Vec<Face>, AllocError>
    ensures { IfOk result (λ v. v.items ≡ all.now) }
{
    let mut faces = Vec::new(alloc);
    for face in all {
        faces.push(Face::from_vec(face.to_vec(alloc)?))?;
    }
    Ok(faces)
}
