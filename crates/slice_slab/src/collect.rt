//! The passages of the edges that reach two heights.
ghost use Rattle.std.specs.Prelude.{◌≡◌, ◌<◌, ◌^◌, ◌++◌, ◌<ℤ◌, pos, true, not, length, filter, IfOk, OnOk, All};
ghost use Rattle.scad_geom.specs.Limits.{coordinate_limit};
ghost use Rattle.scad_geom.specs.Line.{rise};
ghost use Rattle.scad_geom.specs.Within.{IsEdgeWithin};
ghost use Rattle.scad_geom.specs.Level.{IsLevelWithin};
ghost use Rattle.slice_bundles.specs.Bundles.{reaches, reaching, edge_at};
ghost use Rattle.slice_slab.specs.Passages.{numbers_of, IsPassageOf};
ghost use Rattle.slice_bundles.specs.Touching.{touches};

use crate::passage::Passage;
use scad_geom::line::{ends_from, rise, run, starts_by, x_at};
use scad_geom::{Edge, LeafEdge, Level};
use std::alloc::{AllocError, Global};

pub(crate) fn passages(
    alloc: Global,
    edges: &[LeafEdge],
    lower: &Level,
    upper: &Level,
) -> Result<Vec<Passage>, AllocError>
    requires within { All (λ e. IsEdgeWithin coordinate_limit e.edge) edges.now }
    requires few { length edges.now < 2 ^ 32 }
    requires lower { IsLevelWithin coordinate_limit lower.now }
    requires upper { IsLevelWithin coordinate_limit upper.now }
    ensures numbers { IfOk result (λ v. numbers_of v.items ≡ reaching 0 edges.now lower.now upper.now) }
    ensures passages { IfOk result (λ v. All (IsPassageOf edges.now lower.now) v.items) }
{
    let mut out = Vec::new(alloc);
    'edges: for i in 0..edges.len() {
        if reaches_at(edges, i, lower, upper) {
            out.push(passage(edges, i, lower))?;
        }
    }
    Ok(out)
}

/// The same, of the edges with these numbers. The numbers of the others are added to a list.
pub(crate) fn passages_among(
    alloc: Global,
    edges: &[LeafEdge],
    numbers: &[u32],
    lower: &Level,
    upper: &Level,
    others: &mut Vec<u32>,
) -> Result<Vec<Passage>, AllocError>
    requires within { All (λ e. IsEdgeWithin coordinate_limit e.edge) edges.now }
    requires few { length edges.now < 2 ^ 32 }
    requires lower { IsLevelWithin coordinate_limit lower.now }
    requires upper { IsLevelWithin coordinate_limit upper.now }
    requires there { All (λ k. k < length edges.now) numbers.now }
    ensures numbers { IfOk result (λ v. numbers_of v.items
        ≡ filter (λ k. reaches (edge_at edges.now k) lower.now upper.now) numbers.now) }
    ensures passages { IfOk result (λ v. All (IsPassageOf edges.now lower.now) v.items) }
    ensures others { OnOk result (others.new.items ≡ others.old.items
        ++ filter (λ k. not (reaches (edge_at edges.now k) lower.now upper.now)) numbers.now) }
{
    let mut out = Vec::new(alloc);
    'numbers: for k in numbers {
        if reaches_at(edges, *k as usize, lower, upper) {
            out.push(passage(edges, *k as usize, lower))?;
        } else {
            others.push(*k)?;
        }
    }
    Ok(out)
}

/// Of these numbers those of edges that meet a height.
pub(crate) fn touching_among(
    alloc: Global,
    edges: &[LeafEdge],
    numbers: &[u32],
    at: &Level,
) -> Result<Vec<u32>, AllocError>
    requires within { All (λ e. IsEdgeWithin coordinate_limit e.edge) edges.now }
    requires at { IsLevelWithin coordinate_limit at.now }
    requires there { All (λ k. k < length edges.now) numbers.now }
    ensures { IfOk result (λ v. v.items ≡ filter (λ k. touches (edge_at edges.now k) at.now) numbers.now) }
{
    let mut out = Vec::new(alloc);
    'numbers: for k in numbers {
        if touches(&edges[*k as usize].edge, at) {
            out.push(*k)?;
        }
    }
    Ok(out)
}

/// Whether an edge, flat or not, meets a height.
#[tactic(auto, using(scad_geom::proofs::Casts::casts), unfolding(slice_bundles::specs::Touching::touches))]
fn touches(e: &Edge, at: &Level) -> bool
    requires edge { IsEdgeWithin coordinate_limit e.now }
    requires at { IsLevelWithin coordinate_limit at.now }
    ensures { result ≡ touches e.now at.now }
{
    starts_by(e, at) && ends_from(e, at)
}

fn reaches_at(edges: &[LeafEdge], i: usize, lower: &Level, upper: &Level) -> bool
    requires within { All (λ e. IsEdgeWithin coordinate_limit e.edge) edges.now }
    requires lower { IsLevelWithin coordinate_limit lower.now }
    requires upper { IsLevelWithin coordinate_limit upper.now }
    requires there { i < length edges.now }
    ensures value { result ≡ reaches (edge_at edges.now i) lower.now upper.now }
    ensures rises { result ≡ true → pos 0 <ℤ rise (edge_at edges.now i) }
{
    reaches(&edges[i].edge, lower, upper)
}

fn passage(edges: &[LeafEdge], i: usize, at: &Level) -> Passage
    requires within { All (λ e. IsEdgeWithin coordinate_limit e.edge) edges.now }
    requires few { length edges.now < 2 ^ 32 }
    requires at { IsLevelWithin coordinate_limit at.now }
    requires there { i < length edges.now }
    requires rises { pos 0 <ℤ rise (edge_at edges.now i) }
    ensures number { result.number ≡ i }
    ensures passage { IsPassageOf edges.now at.now result }
{
    let e = &edges[i].edge;
    Passage {
        number: i as u32,
        x: x_at(e, at),
        rise: rise(e),
        run: run(e),
    }
}

/// Whether an edge isn't flat and reaches both heights.
#[tactic(auto, using(scad_geom::proofs::Casts::casts), unfolding(slice_bundles::specs::Bundles::reaches))]
fn reaches(e: &Edge, lower: &Level, upper: &Level) -> bool
    requires edge { IsEdgeWithin coordinate_limit e.now }
    requires lower { IsLevelWithin coordinate_limit lower.now }
    requires upper { IsLevelWithin coordinate_limit upper.now }
    ensures value { result ≡ reaches e.now lower.now upper.now }
    ensures rises { result ≡ true → pos 0 <ℤ rise e.now }
{
    rise(e) > 0 && (starts_by(e, lower) && ends_from(e, upper))
}
