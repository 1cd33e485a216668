//! The triangles of faces.
ghost use Rattle.std.specs.Prelude.{◌≡◌, ◌<◌, length, map, None, IfOk, IsTrue, find, nat_le};
ghost use Rattle.scad_solid.specs.Solid.{corners, fans, first_bad, names_points};

use crate::face::Face;
use crate::fan::push_fan;
use crate::triangle::Triangle;
use scad_geom::Pt3;
use std::alloc::{AllocError, Global};

/// The first number of a face that names none of so many points.
pub(crate) fn first_bad(count: usize, faces: &[Face]) -> Option<u32>
    ensures { result ≡ first_bad count faces.now }
{
    for face in faces {
        if let Some(i) = first_bad_of(count, face.as_slice()) {
            return Some(i);
        }
    }
    None
}

fn first_bad_of(count: usize, face: &[u32]) -> Option<u32>
    ensures { result ≡ find (λ i. nat_le count i) face.now }
{
    face.iter().copied().find(|i| *i as usize >= count)
}

/// The fans of all faces, each of whose numbers names a point.
pub(crate) fn fans(
    alloc: Global,
    points: &[Pt3],
    faces: &[Face],
) -> Result<Vec<Triangle>, AllocError>
    requires { first_bad (length points.now) faces.now ≡ None }
    ensures { IfOk result (λ v. v.items ≡ fans (map (corners points.now) faces.now)) }
{
    let mut triangles = Vec::new(alloc);
    for face in faces {
        let corners = corners(alloc, points, face.as_slice())?;
        push_fan(&mut triangles, corners.as_slice())?;
    }
    Ok(triangles)
}

// The points that the face names.
fn corners(alloc: Global, points: &[Pt3], face: &[u32]) -> Result<Vec<Pt3>, AllocError>
    requires { IsTrue (names_points (length points.now) face.now) }
    ensures { IfOk result (λ v. v.items ≡ corners points.now face.now) }
{
    let mut corners = Vec::new(alloc);
    for i in face {
        corners.push(points[*i as usize])?;
    }
    Ok(corners)
}
