//! Levels within the bounds of the comparisons.
ghost use Rattle.scad_geom.specs.Limits.{coordinate_limit};
ghost use Rattle.scad_geom.specs.Level.{IsLevelWithin};

use scad_geom::Level;

/// A level whose comparisons cannot overflow.
#[derive(Clone, Copy)]
pub(crate) struct Height {
    pub(crate) level: Level,
    ghost within: { IsLevelWithin coordinate_limit level },
}
