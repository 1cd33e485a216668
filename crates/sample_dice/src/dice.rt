//! Random numbers and points by a seed.
ghost use Rattle.std.specs.Prelude.{◌<◌, ◌≤◌, unsigned_abs};
ghost use Rattle.scad_geom.specs.Limits.{point_limit, coordinate_limit};
ghost use Rattle.scad_geom.specs.Within.{IsWithin};

use scad_geom::Pt;

/// The numbers of a seed, one after another: x · 6364136223846793005 + 1442695040888963407 modulo 2^64 from one to the next,
/// of which the upper 31 bits are rolled.
#[derive(Drop)]
pub struct Dice {
    state: u64,
}

impl Dice {
    /// The numbers of this seed, from the first on.
    pub fn of_seed(seed: u64) -> Dice {
        Dice { state: seed }
    }

    /// The next number, below the given one.
    pub fn roll(&mut self, below: u32) -> u32
        requires { 0 < below }
        ensures { result < below }
    {
        self.state = self
            .state
            .wrapping_mul(6364136223846793005)
            .wrapping_add(1442695040888963407);
        ((self.state >> 33) % u64::from(below)) as u32
    }

    /// A point whose coordinates are among so many from the least one on; x is rolled first.
    pub fn roll_point(&mut self, least: i32, side: u32) -> Pt
        requires some { 0 < side }
        requires side { side ≤ 10000 }
        requires least { unsigned_abs least ≤ 10000 }
        ensures point { IsWithin point_limit result }
        ensures coordinate { IsWithin coordinate_limit result }
    {
        let x = least + self.roll(side) as i32;
        let y = least + self.roll(side) as i32;
        Pt { x, y }
    }
}
