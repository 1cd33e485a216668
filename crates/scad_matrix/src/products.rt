//! Products of matrices.
ghost use Rattle.std.specs.Prelude.{◌≡◌, ◌^◌, ◌<◌, ◌≤◌, ◌+ℤ◌, ◌*ℤ◌, unsigned_abs};
ghost use Rattle.scad_num.specs.Number.{one};
ghost use Rattle.scad_matrix.specs.Matrix.{dot, entry, entry_number, row_number, composed};

use crate::matrix::{Matrix, MatrixFault, Row};
use scad_geom::wide::{plus, times};
use scad_num::{Num, ONE, ONE_PART, half_away};

// The exact product of a row and a column whose last entry is given in millionths. Each of its four
// products is below 2^100, so 128 bits hold their sum, and twice what is rounded.
pub(crate) fn dot(row: &Row, x: Num, y: Num, z: Num, last: i64) -> i128
    requires { unsigned_abs last ≤ one }
    ensures value { result ≡ dot row.now x y z last }
    ensures size { unsigned_abs result < 2 ^ 103 }
{
    plus(
        unshifted(row, x, y, z),
        times::<50, 20>(row.shift.millionths() as i128, last as i128),
    )
}

// The same without the shift.
fn unshifted(row: &Row, x: Num, y: Num, z: Num) -> i128
    ensures value { result ≡ row.now.x *ℤ x +ℤ row.now.y *ℤ y +ℤ row.now.z *ℤ z }
    ensures size { unsigned_abs result ≤ 2 ^ 102 }
{
    plus(
        plus(product(row.x, x), product(row.y, y)),
        product(row.z, z),
    )
}

/// The exact product of two numbers, in millionths of millionths.
pub(crate) fn product(a: Num, b: Num) -> i128
    ensures value { result ≡ a *ℤ b }
    ensures size { unsigned_abs result ≤ 2 ^ 100 }
{
    times::<50, 50>(a.millionths() as i128, b.millionths() as i128)
}

// An entry of a product, whether it is in range or not.
fn rounded(row: &Row, x: Num, y: Num, z: Num, last: i64) -> i128
    requires { unsigned_abs last ≤ one }
    ensures { result ≡ entry row.now x y z last }
{
    half_away(dot(row, x, y, z, last), ONE_PART)
}

/// An entry of a product: the exact product, rounded once, where it is in range.
pub(crate) fn entry(row: &Row, x: Num, y: Num, z: Num, last: i64) -> Result<Num, MatrixFault>
    requires { unsigned_abs last ≤ one }
    ensures { result ≡ entry_number row.now x y z last }
{
    match Num::of_wide(rounded(row, x, y, z, last)) {
        Ok(entry) => Ok(entry),
        Err(_) => Err(MatrixFault::Range),
    }
}

fn row_times(row: &Row, b: &Matrix) -> Result<Row, MatrixFault>
    ensures { result ≡ row_number row.now b.now }
{
    let x = entry(row, b.x.x, b.y.x, b.z.x, 0)?;
    let y = entry(row, b.x.y, b.y.y, b.z.y, 0)?;
    let z = entry(row, b.x.z, b.y.z, b.z.z, 0)?;
    let shift = entry(row, b.x.shift, b.y.shift, b.z.shift, ONE)?;
    Ok(Row { x, y, z, shift })
}

impl Matrix {
    /// This matrix times another: the placing that does the other one first. Range exactly where an
    /// entry, which is the exact sum of products rounded once, passes 10^15 millionths in size.
    pub fn compose(&self, b: &Matrix) -> Result<Matrix, MatrixFault>
        ensures { result ≡ composed self.now b.now }
    {
        let x = row_times(&self.x, b)?;
        let y = row_times(&self.y, b)?;
        let z = row_times(&self.z, b)?;
        Ok(Matrix { x, y, z })
    }
}
