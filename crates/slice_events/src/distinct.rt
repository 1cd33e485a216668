//! Levels in ascending order, each once.
ghost use Rattle.std.specs.Prelude.{◌≡◌, ◌<◌, length, OnOk, IfOk, All};
ghost use Rattle.std.specs.List.Sorted.{IsPermutation};
ghost use Rattle.scad_geom.specs.Limits.{coordinate_limit};
ghost use Rattle.scad_geom.specs.Level.{IsLevelWithin};
ghost use Rattle.slice_events.specs.Collection.{levels_in, is_lower, IsClimbing};
ghost use Rattle.slice_events.specs.Distinct.{distinct_by, stays_by};

use crate::height::Height;
use scad_geom::{Level, cmp_level};
use std::alloc::{AllocError, Global};

pub(crate) fn sort(heights: &mut Vec<Height>) -> Result<(), AllocError>
    ensures permutation { IsPermutation heights.old.items heights.new.items }
    ensures sorted { OnOk result (IsClimbing (levels_in heights.new.items)) }
{
    heights.sort_by(|p, q| cmp_level(&p.level, &q.level))
}

pub(crate) fn distinct(alloc: Global, heights: &[Height]) -> Result<Vec<Level>, AllocError>
    ensures value { IfOk result (λ v. v.items ≡ distinct_by is_lower (levels_in heights.now)) }
    ensures within { IfOk result (λ v. All (IsLevelWithin coordinate_limit) v.items) }
{
    let mut out = Vec::new(alloc);
    'heights: for i in 0..heights.len() {
        if stays(heights, i) {
            out.push(heights[i].level)?;
        }
    }
    Ok(out)
}

// Whether the height is the last one or lies below the next.
fn stays(heights: &[Height], i: usize) -> bool
    requires { i < length heights.now }
    ensures { result ≡ stays_by is_lower (levels_in heights.now) i }
{
    i + 1 == heights.len() || cmp_level(&heights[i].level, &heights[i + 1].level).is_lt()
}
