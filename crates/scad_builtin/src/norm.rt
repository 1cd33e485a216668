//! `norm`.

ghost use Rattle.std.specs.Prelude.{◌≡◌, ◌≤ℤ◌, pos, IfOk};
ghost use Rattle.scad_num.specs.Number.{sum_of, product_of};
ghost use Rattle.scad_value.specs.View.{elements};
ghost use Rattle.scad_builtin.specs.Memory.{TakesNone};
ghost use Rattle.scad_builtin.specs.Arguments.{numbers};
ghost use Rattle.scad_builtin.specs.Numbers.{squares_onto, norm_of};

use crate::argument::amount;
use crate::fault::BuiltinFault;
use scad_num::{Num, NumFault};
use scad_value::Value;

fn square(a: Num) -> Result<Num, NumFault>
    ensures value { result ≡ product_of a a }
    ensures sign { IfOk result (λ square. pos 0 ≤ℤ square) }
{
    a.mul(a)
}

fn plus(a: Num, b: Num) -> Result<Num, NumFault>
    requires a_sign { pos 0 ≤ℤ a }
    requires b_sign { pos 0 ≤ℤ b }
    ensures value { result ≡ sum_of a b }
    ensures sign { IfOk result (λ sum. pos 0 ≤ℤ sum) }
{
    a.add(b)
}

/// The sum of the squares of numbers.
fn squares(values: &[Value]) -> Result<Num, NumFault>
    ensures value { result ≡ squares_onto (pos 0) (numbers (elements values.now)) }
    ensures sign { IfOk result (λ sum. pos 0 ≤ℤ sum) }
{
    let mut total = Num::within(0);
    for value in values {
        let square = square(amount(value))?;
        total = plus(total, square)?;
    }
    Ok(total)
}

/// The length of a vector of numbers.
pub(crate) fn norm(values: &[Value]) -> Result<Num, BuiltinFault>
    ensures value { result ≡ norm_of (numbers (elements values.now)) }
    ensures memory { TakesNone result }
{
    Ok(squares(values)?.sqrt())
}
