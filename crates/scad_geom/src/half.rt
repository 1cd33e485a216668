//! Whole points and cell centres, in numbers that are twice the coordinates.
ghost use Rattle.std.specs.Prelude.{◌≡◌, ◌+◌, ◌*◌, ◌≤◌, unsigned_abs};
ghost use Rattle.scad_geom.specs.Half.{doubled};

/// Which point a whole point stands for.
#[derive(Clone, Copy)]
pub enum Half {
    /// The point itself.
    Whole,
    /// The centre of the cell to its upper right: half a micrometre more along both axes.
    Cell,
}

impl Half {
    /// Twice a coordinate of the point that is meant.
    pub fn doubled(self, coordinate: i32) -> i64
        ensures value { result ≡ doubled self coordinate }
        ensures size { unsigned_abs result ≤ 2 * unsigned_abs coordinate + 1 }
    {
        match self {
            Half::Whole => 2 * coordinate as i64,
            Half::Cell => 2 * coordinate as i64 + 1,
        }
    }
}
