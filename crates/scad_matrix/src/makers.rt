//! The matrices of the transformations.
ghost use Rattle.std.specs.Prelude.{◌≡◌, ◌≤◌, unsigned_abs};
ghost use Rattle.scad_matrix.specs.Makers.{angle_limit, translation, scaling, rows_of, rotation};

use crate::matrix::{Matrix, Row};
use scad_cos::{cos, sin};
use scad_num::{Num, ONE};

/// A coordinate axis.
#[derive(Clone, Copy)]
pub enum Axis {
    X,
    Y,
    Z,
}

/// The shift by (x, y, z).
pub fn translate(x: Num, y: Num, z: Num) -> Matrix
    ensures { result ≡ translation x y z }
{
    let (o, i) = (number(0), number(ONE));
    Matrix {
        x: row(i, o, o, x),
        y: row(o, i, o, y),
        z: row(o, o, i, z),
    }
}

/// The scaling by x, y and z along the axes.
pub fn scale(x: Num, y: Num, z: Num) -> Matrix
    ensures { result ≡ scaling x y z }
{
    let o = number(0);
    Matrix {
        x: row(x, o, o, o),
        y: row(o, y, o, o),
        z: row(o, o, z, o),
    }
}

/// The three rows of four numbers, one after another.
pub fn of_rows(rows: &[Num; 12]) -> Matrix
    ensures { result ≡ rows_of rows.now }
{
    Matrix {
        x: row(rows[0], rows[1], rows[2], rows[3]),
        y: row(rows[4], rows[5], rows[6], rows[7]),
        z: row(rows[8], rows[9], rows[10], rows[11]),
    }
}

/// The rotation about an axis by an angle in thousandths of a degree, with the entries of `cos` and
/// `sin`.
pub fn turn(axis: Axis, angle: i64) -> Matrix
    requires { unsigned_abs angle ≤ angle_limit }
    ensures { result ≡ rotation axis angle }
{
    let (o, i) = (number(0), number(ONE));
    let (c, s, t) = (number(cos(angle)), number(sin(angle)), number(-sin(angle)));
    match axis {
        Axis::X => Matrix {
            x: row(i, o, o, o),
            y: row(o, c, t, o),
            z: row(o, s, c, o),
        },
        Axis::Y => Matrix {
            x: row(c, o, s, o),
            y: row(o, i, o, o),
            z: row(t, o, c, o),
        },
        Axis::Z => Matrix {
            x: row(c, t, o, o),
            y: row(s, c, o, o),
            z: row(o, o, i, o),
        },
    }
}

fn row(x: Num, y: Num, z: Num, shift: Num) -> Row
    ensures { result ≡ record { x = x; y = y; z = z; shift = shift } }
{
    Row { x, y, z, shift }
}

fn number(millionths: i64) -> Num
    requires { unsigned_abs millionths ≤ 1000000 }
    ensures { result ≡ millionths }
{
    Num::within(millionths)
}
