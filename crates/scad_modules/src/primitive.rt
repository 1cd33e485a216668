//! Primitive solids with their sizes.

use scad_num::Num;
use scad_solid::Face;

/// A primitive solid, before it is placed.
#[derive(Drop)]
pub enum Primitive {
    /// The sizes along x, y and z, centred or not.
    Cube(Num, Num, Num, bool),
    /// The radius and the number of fragments.
    Sphere(Num, u32),
    /// The height, the radii of bottom and top, the number of fragments, centred or not.
    Cylinder(Num, Num, Num, u32, bool),
    /// The points and the faces.
    Polyhedron(Vec<(Num, Num, Num)>, Vec<Face>),
}
