//! The heights of the ends of edges.
ghost use Rattle.std.specs.Prelude.{◌≡◌, ◌≤◌, [], ◌∷◌, ◌++◌, OnOk, IfOk, All, map, unsigned_abs};
ghost use Rattle.std.specs.List.Sorted.{IsPermutation};
ghost use Rattle.scad_geom.specs.Limits.{coordinate_limit};
ghost use Rattle.scad_geom.specs.Within.{IsEdgeWithin};
ghost use Rattle.scad_geom.specs.Level.{level_of};
ghost use Rattle.slice_events.specs.Collection.{levels_in, end_ys, end_levels};

use crate::height::Height;
use scad_geom::{LeafEdge, Level};
use std::alloc::{AllocError, Global};

/// Adds them to a list, ascending: the sort that follows keeps a run in order.
pub(crate) fn push_ends(
    alloc: Global,
    out: &mut Vec<Height>,
    edges: &[LeafEdge],
) -> Result<(), AllocError>
    requires { All (λ e. IsEdgeWithin coordinate_limit e.edge) edges.now }
    ensures ok { OnOk result (IsPermutation (levels_in out.old.items ++ end_levels edges.now) (levels_in out.new.items)) }
{
    let mut ends = end_ys(alloc, edges)?;
    ends.sort_unstable();
    push_all(out, &ends)
}

fn end_ys(alloc: Global, edges: &[LeafEdge]) -> Result<Vec<i32>, AllocError>
    ensures { IfOk result (λ v. v.items ≡ end_ys edges.now) }
{
    let mut ends = Vec::with_capacity(alloc, edges.len())?;
    'edges: for e in edges {
        push_both(&mut ends, e)?;
    }
    Ok(ends)
}

fn push_both(ends: &mut Vec<i32>, e: &LeafEdge) -> Result<(), AllocError>
    ensures { OnOk result (ends.new.items ≡ ends.old.items ++ (e.now.edge.a.y ∷ e.now.edge.b.y ∷ [])) }
{
    ends.push(e.edge.a.y)?;
    ends.push(e.edge.b.y)?;
    Ok(())
}

fn push_all(out: &mut Vec<Height>, ys: &[i32]) -> Result<(), AllocError>
    requires { All (λ y. unsigned_abs y ≤ coordinate_limit) ys.now }
    ensures ok { OnOk result (levels_in out.new.items ≡ levels_in out.old.items ++ map level_of ys.now) }
{
    'ys: for y in ys {
        push_whole(out, *y)?;
    }
    Ok(())
}

fn push_whole(out: &mut Vec<Height>, y: i32) -> Result<(), AllocError>
    requires { unsigned_abs y ≤ coordinate_limit }
    ensures ok { OnOk result (levels_in out.new.items ≡ levels_in out.old.items ++ level_of y ∷ []) }
{
    let level = Level { n: y as i128, d: 1 };
    out.push(Height { level })?;
    Ok(())
}
