//! Rings of the plane.
ghost use Rattle.std.specs.Prelude.{◌≡◌, List, ℤ};

use scad_num::Num;
use std::marker::Model;

/// The corners of a ring in order, where the last is joined to the first.
#[derive(Drop)]
pub struct Ring2 {
    points: Vec<(Num, Num)>,
}

impl Model for Ring2 {
    ghost Value = { List (ℤ × ℤ) };

    ghost view = { λ r. r.points.items };
}

impl Ring2 {
    /// The ring of the points, without taking memory.
    pub fn from_vec(points: Vec<(Num, Num)>) -> Self
        ensures { result ≡ points.items }
    {
        Ring2 { points }
    }

    /// The points.
    pub fn as_slice(&self) -> &[(Num, Num)]
        ensures { result.now ≡ self.now }
    {
        self.points.as_slice()
    }
}
