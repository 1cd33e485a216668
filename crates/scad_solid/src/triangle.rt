//! Triangles of a surface.
ghost use Rattle.std.specs.Prelude.{◌≡◌};
ghost use Rattle.scad_solid.specs.Surface.{sides_of};
ghost use Rattle.scad_solid.specs.Height.{top_of};

use crate::side::Side;
use scad_geom::Pt3;

/// A triangle of a surface, its corners clockwise as seen from outside.
#[derive(Clone, Copy)]
pub struct Triangle {
    pub a: Pt3,
    pub b: Pt3,
    pub c: Pt3,
}

impl Triangle {
    /// The three sides, in the order of the corners.
    pub fn sides(&self) -> [Side; 3]
        ensures { result ≡ sides_of self.now }
    {
        let Triangle { a, b, c } = *self;
        [
            Side { from: a, to: b },
            Side { from: b, to: c },
            Side { from: c, to: a },
        ]
    }

    /// The greatest height of a corner.
    pub fn top(&self) -> i32
        ensures { result ≡ top_of self.now }
    {
        self.a.z.max(self.b.z).max(self.c.z)
    }
}
