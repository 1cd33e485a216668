//! Sizes along an axis.
ghost use Rattle.std.specs.Prelude.{◌≡◌, ◌≤◌, ◌+ℤ◌, neg_ℤ, unsigned_abs};
ghost use Rattle.scad_num.specs.Number.{most};
ghost use Rattle.scad_num.specs.Rounding.{half_away};
ghost use Rattle.scad_shapes.specs.Outline.{start_of};

use scad_num::{Num, half_away};

/// Where a size begins and where it ends along an axis.
pub fn extent(size: Num, center: bool) -> (Num, Num)
    ensures begins { result.0 ≡ start_of size center }
    ensures ends { result.1 ≡ start_of size center +ℤ size }
{
    if center {
        centred(size)
    } else {
        (Num::within(0), size)
    }
}

#[tactic(auto, using(crate::proofs::Roundings::rest_is_small))]
fn centred(size: Num) -> (Num, Num)
    ensures begins { result.0 ≡ neg_ℤ (half_away size 2) }
    ensures ends { result.1 ≡ neg_ℤ (half_away size 2) +ℤ size }
{
    let half = half(size);
    (Num::within(-half), Num::within(size.millionths() - half))
}

fn half(size: Num) -> i64
    ensures value { result ≡ half_away size 2 }
    ensures small { unsigned_abs result ≤ most }
{
    half_away(i128::from(size.millionths()), 2) as i64
}
