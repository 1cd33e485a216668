//! Open ways.
ghost use Rattle.std.specs.Prelude.{◌≡◌, List};
ghost use Rattle.scad_geom.specs.declared.point.Pt.{Pt};

use crate::point::Pt;
use std::marker::Model;

/// A way through its points in order; the last isn't joined to the first.
#[derive(Drop)]
pub struct Path {
    points: Vec<Pt>,
}

impl Model for Path {
    ghost Value = { List Pt };

    ghost view = { λ p. p.points.items };
}

impl Path {
    /// The path of the points, without taking memory.
    pub fn from_vec(points: Vec<Pt>) -> Self
        ensures { result ≡ points.items }
    {
        Path { points }
    }

    /// The points.
    pub fn as_slice(&self) -> &[Pt]
        ensures { result.now ≡ self.now }
    {
        self.points.as_slice()
    }
}
