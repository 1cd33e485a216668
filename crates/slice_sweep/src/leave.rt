//! The edges that leave a place at a height.
ghost use Rattle.std.specs.Prelude.{◌≡◌, ◌<◌, pos, ◌<ℤ◌, true, filter, length, IfOk, OnOk, All};
ghost use Rattle.std.specs.List.{concat};
ghost use Rattle.std.specs.List.Sorted.{IsPermutation};
ghost use Rattle.scad_geom.specs.Limits.{coordinate_limit};
ghost use Rattle.scad_geom.specs.Line.{rise};
ghost use Rattle.scad_geom.specs.Within.{IsEdgeWithin};
ghost use Rattle.scad_geom.specs.Level.{IsLevelWithin};
ghost use Rattle.slice_bundles.specs.Bundles.{edge_at, reaches, AreRanked};
ghost use Rattle.slice_bundles.specs.KeptOrder.{IsSamePlaceAt, AllStand};
ghost use Rattle.slice_sweep.specs.Rays.{numbers_of, IsRayOf};

use crate::coinciding::group;
use crate::ray::Ray;
use crate::slope::sort;
use crate::step::Step;
use scad_geom::line::{ends_from, rise, run, starts_by};
use scad_geom::{Edge, LeafEdge, Level};
use slice_bundles::Bundle;
use std::alloc::AllocError;

/// Of the edges of these numbers, which lie at one place at the lower height, those that reach the upper one: by slope,
/// with those that coincide in one bundle.
pub(crate) fn leaving(
    step: &Step<'_>,
    numbers: &[u32],
    rays: &mut Vec<Ray>,
) -> Result<Vec<Bundle>, AllocError>
    requires there { All (λ k. k < length step.now.edges.now) numbers.now }
    requires together { AllStand (IsSamePlaceAt step.now.lower.now) step.now.edges.now numbers.now numbers.now }
    ensures members { IfOk result (λ v. IsPermutation
        (filter (λ k. reaches (edge_at step.now.edges.now k) step.now.lower.now step.now.upper.now) numbers.now)
        (concat v.items)) }
    ensures ranked { IfOk result (λ v. AreRanked step.now.edges.now step.now.lower.now v.items) }
{
    gather(step, numbers, rays)?;
    sort(rays)?;
    group(step.alloc, rays)
}

fn gather(step: &Step<'_>, numbers: &[u32], rays: &mut Vec<Ray>) -> Result<(), AllocError>
    requires there { All (λ k. k < length step.now.edges.now) numbers.now }
    ensures numbers { OnOk result (numbers_of rays.new.items
        ≡ filter (λ k. reaches (edge_at step.now.edges.now k) step.now.lower.now step.now.upper.now) numbers.now) }
    ensures rays { OnOk result (All (IsRayOf step.now.edges.now) rays.new.items) }
{
    rays.clear();
    'numbers: for k in numbers {
        if goes_up(step, *k) {
            rays.push(ray(step.edges, *k))?;
        }
    }
    Ok(())
}

fn goes_up(step: &Step<'_>, k: u32) -> bool
    requires there { k < length step.now.edges.now }
    ensures value { result ≡ reaches (edge_at step.now.edges.now k) step.now.lower.now step.now.upper.now }
    ensures rises { result ≡ true → pos 0 <ℤ rise (edge_at step.now.edges.now k) }
{
    reaches(&step.edges[k as usize].edge, step.lower, step.upper)
}

fn ray(edges: &[LeafEdge], k: u32) -> Ray
    requires within { All (λ e. IsEdgeWithin coordinate_limit e.edge) edges.now }
    requires there { k < length edges.now }
    requires rises { pos 0 <ℤ rise (edge_at edges.now k) }
    ensures number { result.number ≡ k }
    ensures ray { IsRayOf edges.now result }
{
    let e = &edges[k as usize].edge;
    Ray {
        number: k,
        rise: rise(e),
        run: run(e),
    }
}

/// Whether an edge isn't flat and reaches both heights.
#[tactic(auto, using(scad_geom::proofs::Casts::casts), unfolding(slice_bundles::specs::Bundles::reaches))]
pub(crate) fn reaches(e: &Edge, lower: &Level, upper: &Level) -> bool
    requires edge { IsEdgeWithin coordinate_limit e.now }
    requires lower { IsLevelWithin coordinate_limit lower.now }
    requires upper { IsLevelWithin coordinate_limit upper.now }
    ensures value { result ≡ reaches e.now lower.now upper.now }
    ensures rises { result ≡ true → pos 0 <ℤ rise e.now }
{
    rise(e) > 0 && (starts_by(e, lower) && ends_from(e, upper))
}
