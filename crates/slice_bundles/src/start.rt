//! Where an edge begins.
ghost use Rattle.std.specs.Prelude.{◌≤◌, unsigned_abs};
ghost use Rattle.scad_geom.specs.Limits.{coordinate_limit};

/// The height of an edge's lower end, and the edge's number.
#[derive(Clone, Copy)]
pub struct Start {
    pub y: i32,
    pub number: u32,
    ghost size: { unsigned_abs y ≤ coordinate_limit },
}
