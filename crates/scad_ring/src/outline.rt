//! A few corners, without memory of their own.
ghost use Rattle.std.specs.Prelude.{◌≡◌, ◌≤◌, List, [], ◌∷◌, take};
ghost use Rattle.scad_geom.specs.declared.point.Pt.{Pt};

use scad_geom::Pt;
use std::marker::Model;

/// The corners of a ring, at most ten, seen by contracts as their list.
#[derive(Drop)]
pub struct Ring {
    corners: [Pt; 10],
    count: usize,
    ghost within: { count ≤ 10 },
}

impl Model for Ring {
    ghost Value = { List Pt };

    ghost view = { λ r. take r.count r.corners };
}

impl Ring {
    pub(crate) fn four(a: Pt, b: Pt, c: Pt, d: Pt) -> Ring
        ensures { result ≡ a ∷ b ∷ c ∷ d ∷ [] }
    {
        Ring {
            corners: [a, b, c, d, d, d, d, d, d, d],
            count: 4,
        }
    }

    pub(crate) fn six(a: Pt, b: Pt, c: Pt, d: Pt, e: Pt, f: Pt) -> Ring
        ensures { result ≡ a ∷ b ∷ c ∷ d ∷ e ∷ f ∷ [] }
    {
        Ring {
            corners: [a, b, c, d, e, f, f, f, f, f],
            count: 6,
        }
    }

    /// The first `count` of these.
    pub(crate) fn of(corners: [Pt; 10], count: usize) -> Ring
        requires { count ≤ 10 }
        ensures { result ≡ take count corners }
    {
        Ring { corners, count }
    }

    /// The corners, counter-clockwise from the lowest and then leftmost.
    pub fn as_slice(&self) -> &[Pt]
        ensures { result.now ≡ self.now }
    {
        &self.corners[..self.count]
    }
}
