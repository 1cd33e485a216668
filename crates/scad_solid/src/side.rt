//! Directed sides of triangles.
ghost use Rattle.std.specs.Prelude.{◌≡◌};
ghost use Rattle.scad_solid.specs.Side.{reversed};

use scad_geom::Pt3;

/// A side of a triangle, run from one corner to the next.
#[derive(Clone, Copy, PartialEq, Eq, PartialOrd, Ord)]
pub struct Side {
    pub from: Pt3,
    pub to: Pt3,
}

impl Side {
    /// The side run the other way.
    pub fn reversed(self) -> Side
        ensures { result ≡ reversed self }
    {
        Side {
            from: self.to,
            to: self.from,
        }
    }
}
