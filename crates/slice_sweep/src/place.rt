//! Where an edge has its place among strands.
ghost use Rattle.std.specs.Prelude.{◌≡◌, ◌<◌, ◌≤◌, ◌+◌, ◌*◌, ◌^◌, ◌*ℤ◌, ◌<ℤ◌, int_lt, true, unsigned_abs, ℕ, length, All};
ghost use Rattle.scad_geom.specs.Limits.{coordinate_limit};
ghost use Rattle.scad_geom.specs.Line.{rise, x_at};
ghost use Rattle.scad_geom.specs.Within.{IsEdgeWithin};
ghost use Rattle.scad_geom.specs.Level.{IsLevelWithin};
ghost use Rattle.slice_bundles.specs.Bundles.{edge_at, reaches};
ghost use Rattle.slice_bundles.specs.KeptOrder.{IsLeftAt, IsNotRightAt};
ghost use Rattle.slice_sweep.specs.Spots.{IsBetween};
ghost use Rattle.slice_sweep.specs.Strands.{head, AreThere, strand_at};

use crate::spot::{Spot, left_end, right_end, spot_on};
use crate::strand::Strand;
use crate::wake::head;
use scad_geom::line::{rise, x_at};
use scad_geom::wide::times;
use scad_geom::{LeafEdge, Level};

/// A place before which a strand lies to the left of an edge at a height, and after which one doesn't.
pub(crate) fn place(edges: &[LeafEdge], strands: &[Strand], k: u32, at: &Level) -> usize
    requires within { All (λ e. IsEdgeWithin coordinate_limit e.edge) edges.now }
    requires strands { AreThere edges.now strands.now }
    requires reach { All (λ s. reaches (head edges.now s.bundle) at.now at.now ≡ true) strands.now }
    requires edge { k < length edges.now }
    requires starts { reaches (edge_at edges.now k) at.now at.now ≡ true }
    requires at { IsLevelWithin coordinate_limit at.now }
    ensures within { result ≤ length strands.now }
    ensures left { (j : ℕ) → j + 1 ≡ result
        → IsLeftAt at.now (head edges.now (strand_at strands.now j).bundle) (edge_at edges.now k) }
    ensures right { result < length strands.now
        → IsNotRightAt at.now (edge_at edges.now k) (head edges.now (strand_at strands.now result).bundle) }
{
    let spot = spot_on(&edges[k as usize].edge, at);
    let mut low = 0;
    let mut high = strands.len();
    'places: while low < high {
        let middle = low + (high - low) / 2;
        if is_left(edges, &strands[middle], &spot, at) {
            low = middle + 1;
        } else {
            high = middle;
        }
    }
    low
}

// Whether a strand lies at a height to the left of a place. Mostly its ends tell.
fn is_left(edges: &[LeafEdge], s: &Strand, spot: &Spot, at: &Level) -> bool
    requires within { All (λ e. IsEdgeWithin coordinate_limit e.edge) edges.now }
    requires there { All (λ k. k < length edges.now) s.now.bundle }
    requires reach { reaches (head edges.now s.now.bundle) at.now at.now ≡ true }
    requires between { IsBetween at.now spot.now.x spot.now.up spot.now.from spot.now.to }
    requires at { IsLevelWithin coordinate_limit at.now }
    ensures { result ≡ int_lt (x_at (head edges.now s.now.bundle) at.now.n at.now.d *ℤ spot.now.up)
        (spot.now.x *ℤ rise (head edges.now s.now.bundle)) }
{
    let first = head(edges, &s.bundle);
    if lies_before(right_end(&first), spot) {
        return true;
    }
    if lies_behind(left_end(&first), spot) {
        return false;
    }
    is_left_of(edges, s, spot.x, spot.up, at)
}

fn lies_before(x: i32, spot: &Spot) -> bool
    ensures { result ≡ true → x <ℤ spot.now.from }
{
    x < spot.from
}

fn lies_behind(x: i32, spot: &Spot) -> bool
    ensures { result ≡ true → spot.now.to <ℤ x }
{
    spot.to < x
}

// Whether a strand lies at a height to the left of an edge with this x and this rise.
fn is_left_of(edges: &[LeafEdge], s: &Strand, x: i128, up: i128, at: &Level) -> bool
    requires within { All (λ e. IsEdgeWithin coordinate_limit e.edge) edges.now }
    requires there { All (λ k. k < length edges.now) s.now.bundle }
    requires x { unsigned_abs x ≤ 2 ^ 89 }
    requires up { unsigned_abs up ≤ 2 * coordinate_limit }
    requires at { IsLevelWithin coordinate_limit at.now }
    ensures { result ≡ int_lt (x_at (head edges.now s.now.bundle) at.now.n at.now.d *ℤ up)
        (x *ℤ rise (head edges.now s.now.bundle)) }
{
    let first = head(edges, &s.bundle);
    times::<89, 22>(x_at(&first, at), up) < times::<89, 22>(x, rise(&first))
}
