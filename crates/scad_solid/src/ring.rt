//! Rings of points.
ghost use Rattle.std.specs.Prelude.{◌≡◌, List};
ghost use Rattle.scad_geom.specs.declared.point3.Pt3.{Pt3};

use scad_geom::Pt3;
use std::marker::Model;

/// A ring: its points in order, where the last is joined to the first.
#[derive(Drop)]
pub struct Ring {
    points: Vec<Pt3>,
}

impl Model for Ring {
    ghost Value = { List Pt3 };

    ghost view = { λ r. r.points.items };
}

impl Ring {
    /// The ring of the points, without taking memory.
    pub fn from_vec(points: Vec<Pt3>) -> Self
        ensures { result ≡ points.items }
    {
        Ring { points }
    }

    /// The points.
    pub fn as_slice(&self) -> &[Pt3]
        ensures { result.now ≡ self.now }
    {
        self.points.as_slice()
    }
}
