//! The shape's values beside the bundles next to a level.
ghost use Rattle.std.specs.Prelude.{◌≡◌, ◌<◌, ◌≤◌, ◌<ℤ◌, ◌*ℤ◌, ℕ, List, pos, int_lt, true, false, length, slice_index_or, IfOk, All};
ghost use Rattle.std.specs.List.{AllByRecursion};
ghost use Rattle.scad_geom.specs.Limits.{coordinate_limit};
ghost use Rattle.scad_geom.specs.Line.{rise, left_of, x_at};
ghost use Rattle.scad_geom.specs.Within.{IsEdgeWithin};
ghost use Rattle.scad_geom.specs.Winding.{is_beyond};
ghost use Rattle.slice_pieces.specs.Spots.{point_of};
ghost use Rattle.slice_bool.specs.BothSides.{IsNothing};
ghost use Rattle.slice_border.specs.Stops.{spots_in};
ghost use Rattle.slice_bool.specs.LeftValues.{AreLeftValues};
ghost use Rattle.slice_border.specs.Beside.{RisesFirst, is_right_of};
ghost use Rattle.slice_bool.specs.Along.{GoAlong, AreBeside};

use crate::sweep::Sweep;
use scad_geom::line::{rise, x_at};
use scad_geom::wide::times;
use scad_geom::{Edge, LeafEdge};
use slice_border::Stop;
use slice_bundles::Bundle;
use std::alloc::{AllocError, Global};

/// Bundles from left to right, and the shape's values from right to left: at the right end, then to the left of each.
#[derive(Drop)]
pub(crate) struct Valued {
    pub(crate) bundles: Vec<Bundle>,
    pub(crate) values: Vec<bool>,
}

/// What lies just below a level and just above it.
#[derive(Clone, Copy)]
pub(crate) struct Sides<'a> {
    pub(crate) below: &'a Valued,
    pub(crate) above: &'a Valued,
}

/// No bundles: nothing is held.
pub(crate) fn nothing_beside(alloc: Global) -> Result<Valued, AllocError>
    ensures { IfOk result IsNothing }
{
    let mut values = Vec::new(alloc);
    values.push(false)?;
    Ok(Valued {
        bundles: Vec::new(alloc),
        values,
    })
}

/// The values to the left of the bundles that lie to the right of each stop. The stops go from left to right along one
/// level.
pub(crate) fn values_beside(
    sweep: &Sweep<'_>,
    side: &Valued,
    stops: &[Stop],
) -> Result<Vec<bool>, AllocError>
    requires values { AreLeftValues sweep.now.edges.now sweep.now.shape.now side.now.bundles.items side.now.values.items }
    requires firsts { AllByRecursion (RisesFirst sweep.now.edges.now) side.now.bundles.items }
    requires stops { GoAlong (spots_in stops.now) }
    ensures { IfOk result
        (λ v. AreBeside sweep.now.edges.now sweep.now.shape.now side.now.bundles.items stops.now v.items) }
{
    let mut values = Vec::new(sweep.alloc);
    let mut from = 0;
    'stops: for s in stops {
        from = first_right(sweep.edges, &side.bundles, from, s);
        values.push(side.values[side.bundles.len() - from])?;
    }
    Ok(values)
}

// The place of the first bundle, from one on, that lies to the right of a stop, or the number of bundles.
fn first_right(edges: &[LeafEdge], bundles: &[Bundle], from: usize, s: &Stop) -> usize
    requires within { All (λ e. IsEdgeWithin coordinate_limit e.edge) edges.now }
    requires firsts { AllByRecursion (RisesFirst edges.now) bundles.now }
    requires there { from ≤ length bundles.now }
    ensures there { result ≤ length bundles.now }
    ensures passed { (j : ℕ) (d : List ℕ) → from ≤ j → j < result
        → is_right_of edges.now (point_of s.now.spot) (slice_index_or bundles.now j d) ≡ false }
    ensures next { (d : List ℕ) → result < length bundles.now
        → is_right_of edges.now (point_of s.now.spot) (slice_index_or bundles.now result d) ≡ true }
{
    let mut k = from;
    'bundles: while k < bundles.len() && !is_right_of(edges, s, &bundles[k]) {
        k += 1;
    }
    k
}

fn is_right_of(edges: &[LeafEdge], s: &Stop, bundle: &Bundle) -> bool
    requires within { All (λ e. IsEdgeWithin coordinate_limit e.edge) edges.now }
    requires first { RisesFirst edges.now bundle.now }
    ensures { result ≡ is_right_of edges.now (point_of s.now.spot) bundle.now }
{
    match bundle.as_slice() {
        [] => false,
        [k, ..] => passes_right(&edges[*k as usize].edge, s),
    }
}

// Whether an edge passes a stop's height to the right of the stop.
fn passes_right(e: &Edge, s: &Stop) -> bool
    requires edge { IsEdgeWithin coordinate_limit e.now }
    requires rises { pos 0 <ℤ rise e.now }
    ensures { result ≡ is_beyond true (left_of e.now (point_of s.now.spot).x (point_of s.now.spot).y (point_of s.now.spot).d) }
{
    lies_right(e, s)
}

fn lies_right(e: &Edge, s: &Stop) -> bool
    requires { IsEdgeWithin coordinate_limit e.now }
    ensures { result
        ≡ int_lt (s.now.spot.x *ℤ rise e.now) (x_at e.now s.now.spot.at.n s.now.spot.at.d *ℤ pos s.now.spot.run) }
{
    times::<89, 22>(s.spot.x, rise(e)) < times::<89, 22>(x_at(e, &s.spot.at), s.spot.run as i128)
}
