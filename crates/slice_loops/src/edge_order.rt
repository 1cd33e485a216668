//! Edges in ascending order: by start y, start x, end y, end x.
ghost use Rattle.std.specs.Prelude.{◌≡◌};
ghost use Rattle.std.specs.List.Sorted.{IsPermutation};
ghost use Rattle.slice_loops.specs.Order.{edge_cmp};
ghost use Rattle.slice_loops.specs.Ascending.{IsAscending};

use scad_geom::{Edge, cmp_point};
use std::cmp::Ordering;

pub(crate) fn sort(edges: &mut Vec<Edge>)
    ensures permutation { IsPermutation edges.old.items edges.new.items }
    ensures ascending { IsAscending edges.new.items }
{
    edges.sort_unstable_by(compare);
}

fn compare(e: &Edge, f: &Edge) -> Ordering
    ensures { result ≡ edge_cmp e.now f.now }
{
    cmp_point(e.a, f.a).then(cmp_point(e.b, f.b))
}
