//! The corners of a closed outline.
ghost use Rattle.std.specs.Prelude.{◌≡◌, IfOk};
ghost use Rattle.slice_loops.specs.Corners.{bend, advance, is_between, last, corners_between, corners};

use scad_geom::Pt;
use scad_geom::wide::{minus, plus, span, times};
use std::alloc::{AllocError, Global};

/// The vertices of a closed outline but those strictly between their neighbours on one line.
pub(crate) fn corners(alloc: Global, vertices: &[Pt]) -> Result<Vec<Pt>, AllocError>
    ensures { IfOk result (λ v. v.items ≡ corners vertices.now) }
{
    match vertices {
        [] => Ok(Vec::new(alloc)),
        [first, rest @ ..] => corners_round(alloc, *first, rest),
    }
}

fn corners_round(alloc: Global, first: Pt, rest: &[Pt]) -> Result<Vec<Pt>, AllocError>
    ensures { IfOk result (λ v. v.items ≡ corners_between (last first rest.now) first rest.now first) }
{
    let mut corners = Vec::new(alloc);
    let mut before = last(first, rest);
    let mut at = first;
    'vertices: for next in rest {
        if !is_between(before, at, *next) {
            corners.push(at)?;
        }
        before = at;
        at = *next;
    }
    if !is_between(before, at, first) {
        corners.push(at)?;
    }
    Ok(corners)
}

fn last(first: Pt, rest: &[Pt]) -> Pt
    ensures { result ≡ last first rest.now }
{
    let mut at = first;
    'vertices: for next in rest {
        at = *next;
    }
    at
}

fn is_between(a: Pt, p: Pt, b: Pt) -> bool
    ensures { result ≡ is_between a p b }
{
    bend(a, p, b) == 0 && advance(a, p, b) > 0
}

#[tactic(auto, using(scad_geom::proofs::Casts::casts), unfolding(crate::specs::Corners::bend))]
fn bend(a: Pt, p: Pt, b: Pt) -> i128
    ensures { result ≡ bend a p b }
{
    minus(
        times::<32, 32>(span(a.x, p.x), span(p.y, b.y)),
        times::<32, 32>(span(a.y, p.y), span(p.x, b.x)),
    )
}

#[tactic(auto, using(scad_geom::proofs::Casts::casts), unfolding(crate::specs::Corners::advance))]
fn advance(a: Pt, p: Pt, b: Pt) -> i128
    ensures { result ≡ advance a p b }
{
    plus(
        times::<32, 32>(span(a.x, p.x), span(p.x, b.x)),
        times::<32, 32>(span(a.y, p.y), span(p.y, b.y)),
    )
}
