//! The order of edges by the two points between which they run, whichever way.
ghost use Rattle.std.specs.Prelude.{◌≡◌};
ghost use Rattle.std.specs.List.Sorted.{IsPermutation};
ghost use Rattle.slice_pieces.specs.Spans.{lesser, greater, span_cmp, IsAscending};

use scad_geom::{Edge, Pt, cmp_point};
use std::cmp::Ordering;

pub(crate) fn sort(edges: &mut Vec<Edge>)
    ensures permutation { IsPermutation edges.old.items edges.new.items }
    ensures ascending { IsAscending edges.new.items }
{
    edges.sort_unstable_by(compare);
}

fn compare(e: &Edge, f: &Edge) -> Ordering
    ensures { result ≡ span_cmp e.now f.now }
{
    cmp_point(lesser(e), lesser(f)).then(cmp_point(greater(e), greater(f)))
}

fn lesser(e: &Edge) -> Pt
    ensures { result ≡ lesser e.now }
{
    if cmp_point(e.b, e.a).is_lt() {
        e.b
    } else {
        e.a
    }
}

fn greater(e: &Edge) -> Pt
    ensures { result ≡ greater e.now }
{
    if cmp_point(e.b, e.a).is_lt() {
        e.a
    } else {
        e.b
    }
}
