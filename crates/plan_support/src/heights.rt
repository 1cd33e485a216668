//! The heights of the rows of layers.
ghost use Rattle.std.specs.Prelude.{IfOk, All};
ghost use Rattle.plan_support.specs.Rows.{AreRows};
ghost use Rattle.plan_support.specs.Lines.{AreHeights};

use crate::rows::Rows;
use std::alloc::{AllocError, Global};

/// The heights of all rows of all layers, upwards, each once.
pub(crate) fn heights_of(alloc: Global, layers: &[Rows]) -> Result<Vec<i32>, AllocError>
    requires { All AreRows layers.now }
    ensures { IfOk result (λ v. AreHeights layers.now v.items) }
{
    let mut heights = Vec::new(alloc);
    'layers: for rows in layers {
        heights.extend_from_slice(rows.heights())?;
    }
    heights.sort()?;
    heights.dedup();
    Ok(heights)
}
