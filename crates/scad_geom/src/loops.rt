//! Closed outlines.
ghost use Rattle.std.specs.Prelude.{◌≡◌, List};
ghost use Rattle.scad_geom.specs.declared.point.Pt.{Pt};

use crate::point::Pt;
use std::marker::Model;

/// A closed outline: its vertices in order, where the last is joined to the first.
#[derive(Drop)]
pub struct Loop {
    points: Vec<Pt>,
}

impl Model for Loop {
    ghost Value = { List Pt };

    ghost view = { λ l. l.points.items };
}

impl Loop {
    /// The outline of the points, without taking memory.
    pub fn from_vec(points: Vec<Pt>) -> Self
        ensures { result ≡ points.items }
    {
        Loop { points }
    }

    /// The points, without taking memory.
    pub fn into_vec(self) -> Vec<Pt>
        ensures { result.items ≡ self }
    {
        self.points
    }

    /// The points.
    pub fn as_slice(&self) -> &[Pt]
        ensures { result.now ≡ self.now }
    {
        self.points.as_slice()
    }
}
