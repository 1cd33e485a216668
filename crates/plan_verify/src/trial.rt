//! A move whose nearness to sides is asked for.
ghost use Rattle.std.specs.Prelude.{◌≡◌, ◌≤◌, All, true, false};
ghost use Rattle.std.specs.List.{Any};
ghost use Rattle.scad_geom.specs.Limits.{coordinate_limit};
ghost use Rattle.scad_geom.specs.Within.{IsEdgeWithin};
ghost use Rattle.gcode_text.specs.Limits.{width_limit};
ghost use Rattle.plan_verify.specs.Trial.{IsTrial, IsApart, ComesNear};

use crate::extent::Extent;
use scad_geom::Edge;
use scad_near::near;

/// A move as it is seen from above, with the half width and the half sum of the octagon that it keeps clear, and the
/// rectangle beyond which no side can be near to it.
#[derive(Clone, Copy)]
pub struct Trial {
    pub line: Edge,
    pub s: u32,
    pub u: u32,
    pub reach: Extent,
}

impl Trial {
    /// Of an edge and an octagon.
    pub fn of(line: Edge, s: u32, u: u32) -> Trial
        requires line { IsEdgeWithin coordinate_limit line }
        requires few { s ≤ width_limit }
        ensures trial { IsTrial result }
        ensures line { result.line ≡ line }
        ensures s { result.s ≡ s }
        ensures u { result.u ≡ u }
    {
        Trial {
            line,
            s,
            u,
            reach: Extent::reached(&line, s),
        }
    }

    /// Whether none of the sides is near to any point of the move.
    pub fn is_clear_of(&self, sides: &[Edge]) -> bool
        requires trial { IsTrial self.now }
        requires sides { All (IsEdgeWithin coordinate_limit) sides.now }
        ensures clear { result ≡ true → All (IsApart self.now) sides.now }
        ensures near { result ≡ false → Any (ComesNear self.now) sides.now }
    {
        'sides: for side in sides {
            if self.is_near(side) {
                return false;
            }
        }
        true
    }

    fn is_near(&self, side: &Edge) -> bool
        requires trial { IsTrial self.now }
        requires side { IsEdgeWithin coordinate_limit side.now }
        ensures near { result ≡ true → ComesNear self.now side.now }
        ensures apart { result ≡ false → IsApart self.now side.now }
    {
        if Extent::around(side).is_beyond(self.reach) {
            return false;
        }
        near(&self.line, side, self.s, self.u)
    }
}
