//! Solids, kept as their surfaces.
ghost use Rattle.std.specs.Prelude.{◌≡◌, ◌<◌, length, Some, IfSome, slice_get, [], ◌∷◌};
ghost use Rattle.scad_base.specs.Memory.{UnlessMemory};
ghost use Rattle.scad_solid.specs.Height.{highest_of, higher_of};
ghost use Rattle.scad_solid.specs.Solid.{IsSolid, solid_of, is_memory};

use crate::closedness::is_closed;
use crate::face::Face;
use crate::fans::{fans, first_bad};
use crate::fault::SolidFault;
use crate::range::all_in_range;
use crate::triangle::Triangle;
use scad_geom::Pt3;
use std::alloc::Global;
use std::marker::Model;

/// The closed surface of a solid in whole micrometres: triangles whose directed sides of differing
/// points occur as often as their reverses, with all coordinates within `scad_geom::POINT_LIMIT`.
#[derive(Drop)]
pub struct Triangles {
    triangles: Vec<Triangle>,
}

impl Model for Triangles {
    ghost use Rattle.std.specs.Prelude.{List};
    ghost use Rattle.scad_solid.specs.declared.triangle.Triangle.{Triangle};
    ghost use Rattle.scad_solid.specs.Solid.{IsSolid};

    ghost Value = { List Triangle };

    ghost view = { λ t. t.triangles.items };

    ghost invariant = { λ t. IsSolid t.triangles.items };
}

impl Triangles {
    /// The solid of a surface that is known to be closed and in range.
    pub fn from_closed(triangles: Vec<Triangle>) -> Self
        requires { IsSolid triangles.items }
        ensures { result ≡ triangles.items }
    {
        Triangles { triangles }
    }

    /// The solid that faces over points bound, each face split into a fan from its first point. Points
    /// out of range are refused first, then numbers that name no point, then open surfaces.
    #[tactic(auto, unfolding(crate::specs::Solid::solid_of))]
    pub fn from_faces(
        alloc: Global,
        points: &[Pt3],
        faces: &[Face],
    ) -> Result<Triangles, SolidFault>
        ensures { UnlessMemory is_memory result (result ≡ solid_of points.now faces.now) }
    {
        if !all_in_range(points) {
            return Err(SolidFault::CoordinateRange);
        }
        if let Some(i) = first_bad(points.len(), faces) {
            return Err(SolidFault::BadIndex(i));
        }
        let Ok(triangles) = fans(alloc, points, faces) else {
            return Err(SolidFault::Memory);
        };
        match is_closed(alloc, triangles.as_slice()) {
            Ok(true) => Ok(Triangles { triangles }),
            Ok(false) => Err(SolidFault::NotClosed),
            Err(_) => Err(SolidFault::Memory),
        }
    }

    /// How many triangles there are.
    pub fn count(&self) -> usize
        ensures { result ≡ length self.now }
    {
        self.triangles.len()
    }

    /// The greatest height of a corner; None exactly where there is no triangle.
    pub fn highest(&self) -> Option<i32>
        ensures { result ≡ highest_of self.now }
    {
        let mut highest = None;
        for triangle in &self.triangles {
            highest = Some(higher(highest, triangle.top()));
        }
        highest
    }

    /// The corners of the triangle with this number, in the order of the faces.
    pub fn get(&self, i: usize) -> [Pt3; 3]
        requires { i < length self.now }
        ensures { IfSome (slice_get self.now i) (λ t. result ≡ t.a ∷ t.b ∷ t.c ∷ []) }
    {
        let Triangle { a, b, c } = self.triangles[i];
        [a, b, c]
    }

    /// All triangles, in the order of the faces.
    pub fn as_slice(&self) -> &[Triangle]
        ensures all { result.now ≡ self.now }
        ensures solid { IsSolid self.now }
    {
        self.triangles.as_slice()
    }
}

fn higher(z: Option<i32>, other: i32) -> i32
    ensures { Some result ≡ higher_of z (Some other) }
{
    match z {
        None => other,
        Some(z) => z.max(other),
    }
}
