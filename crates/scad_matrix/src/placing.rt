//! Placing of points.
ghost use Rattle.std.specs.Prelude.{◌≡◌};
ghost use Rattle.scad_matrix.specs.Matrix.{placed_coordinate, coordinate_in_range, placed};

use crate::matrix::{Matrix, MatrixFault, Row};
use crate::products::dot;
use scad_geom::{POINT_LIMIT, Pt3};
use scad_num::{Num, ONE, half_away};

impl Matrix {
    /// The placed point in whole micrometres: the exact product, each coordinate rounded once, a half
    /// away from zero. Range exactly where a coordinate then passes 1,000,000 in size.
    pub fn place(&self, x: Num, y: Num, z: Num) -> Result<Pt3, MatrixFault>
        ensures { result ≡ placed self.now x y z }
    {
        let Some(placed_x) = coordinate(&self.x, x, y, z) else {
            return Err(MatrixFault::Range);
        };
        let Some(placed_y) = coordinate(&self.y, x, y, z) else {
            return Err(MatrixFault::Range);
        };
        let Some(placed_z) = coordinate(&self.z, x, y, z) else {
            return Err(MatrixFault::Range);
        };
        Ok(Pt3 {
            x: placed_x,
            y: placed_y,
            z: placed_z,
        })
    }
}

// A placed coordinate, where it is in range.
fn coordinate(row: &Row, x: Num, y: Num, z: Num) -> Option<i32>
    ensures { result ≡ coordinate_in_range (placed_coordinate row.now x y z) }
{
    in_range(half_away(dot(row, x, y, z, ONE), 1_000_000_000))
}

fn in_range(coordinate: i128) -> Option<i32>
    ensures { result ≡ coordinate_in_range coordinate }
{
    if coordinate.unsigned_abs() <= u128::from(POINT_LIMIT) {
        Some(coordinate as i32)
    } else {
        None
    }
}
