//! Functions of numbers.

ghost use Rattle.std.specs.Prelude.{◌≡◌, ◌≤◌, unsigned_abs};
ghost use Rattle.scad_num.specs.Number.{most};
ghost use Rattle.scad_builtin.specs.Memory.{TakesNone};
ghost use Rattle.scad_builtin.specs.Numbers.{size_of, sign_of, root_of, angle_of};
ghost use Rattle.scad_builtin.specs.Numbers.{sine_of, cosine_of, tangent_of, cut_of};
ghost use Rattle.scad_builtin.specs.Numbers.{minor_of};

use crate::fault::BuiltinFault;
use scad_num::{Num, NumFault, ONE, half_away};

pub(crate) fn size(a: Num) -> Num
    ensures { result ≡ size_of a }
{
    Num::within(a.millionths().unsigned_abs() as i64)
}

/// -1, 0 or 1.
pub(crate) fn sign(a: Num) -> Num
    ensures { result ≡ sign_of a }
{
    Num::within(a.millionths().signum() * ONE)
}

pub(crate) fn root(a: Num) -> Result<Num, BuiltinFault>
    ensures value { result ≡ root_of a }
    ensures memory { TakesNone result }
{
    if a.millionths() < 0 {
        return Err(BuiltinFault::BadArgument);
    }
    Ok(a.sqrt())
}

/// Degrees as thousandths of a degree, rounded half away from zero.
fn angle(degrees: Num) -> i64
    ensures value { result ≡ angle_of degrees }
    ensures small { unsigned_abs result ≤ most }
{
    half_away(i128::from(degrees.millionths()), 1000) as i64
}

pub(crate) fn sine(degrees: Num) -> Num
    ensures { result ≡ sine_of degrees }
{
    Num::within(scad_cos::sin(angle(degrees)))
}

pub(crate) fn cosine(degrees: Num) -> Num
    ensures { result ≡ cosine_of degrees }
{
    Num::within(scad_cos::cos(angle(degrees)))
}

pub(crate) fn tangent(degrees: Num) -> Result<Num, BuiltinFault>
    ensures value { result ≡ tangent_of degrees }
    ensures memory { TakesNone result }
{
    Ok(sine(degrees).div(cosine(degrees))?)
}

/// The number cut to a whole one.
pub(crate) fn cut(a: Num) -> i64
    ensures value { result ≡ cut_of a }
    ensures small { unsigned_abs result ≤ most }
{
    a.millionths() / ONE
}

/// `a * d - b * c`
pub(crate) fn minor(a: Num, b: Num, c: Num, d: Num) -> Result<Num, NumFault>
    ensures { result ≡ minor_of a b c d }
{
    let ad = a.mul(d)?;
    let bc = b.mul(c)?;
    ad.sub(bc)
}
