//! A flat edge of a list.
ghost use Rattle.std.specs.Prelude.{◌≤◌, unsigned_abs};
ghost use Rattle.scad_geom.specs.Limits.{coordinate_limit};

/// A flat edge: its height, its ends, and its number.
#[derive(Clone, Copy)]
pub(crate) struct Flat {
    pub(crate) y: i32,
    pub(crate) left: i32,
    pub(crate) right: i32,
    pub(crate) number: u32,
    ghost height: { unsigned_abs y ≤ coordinate_limit },
    ghost left_size: { unsigned_abs left ≤ coordinate_limit },
    ghost right_size: { unsigned_abs right ≤ coordinate_limit },
}
