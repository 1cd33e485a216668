//! From when on a strand is looked at.
ghost use Rattle.std.specs.Prelude.{◌≡◌, ◌<◌, ◌+◌, ◌<ℤ◌, ◌≤ℤ◌, ℤ, List, pos, length, All};
ghost use Rattle.scad_geom.specs.declared.level.Level.{Level};
ghost use Rattle.scad_geom.specs.Limits.{coordinate_limit};
ghost use Rattle.scad_geom.specs.Line.{high};
ghost use Rattle.scad_geom.specs.Within.{IsEdgeWithin};
ghost use Rattle.scad_geom.specs.Level.{IsLevelWithin, IsLower};
ghost use Rattle.slice_bundles.specs.Bundles.{edge_at};
ghost use Rattle.slice_sweep.specs.Keys.{IsBelowKey, stale};
ghost use Rattle.slice_sweep.specs.Strands.{head, EndAbove, LiesLeft, AreThere, strand_at, bundles_of};
ghost use Rattle.slice_sweep.specs.Lows.{AreLow};
ghost use Rattle.slice_sweep.specs.Mending.{ComesBefore, AreOrdered};

use crate::change::Change;
use crate::key::{STALE, meeting_key, whole_key};
use crate::step::Step;
use crate::strand::Strand;
use scad_geom::line::high;
use scad_geom::{Edge, LeafEdge, Pt};
use slice_bundles::Bundle;

/// Makes the keys of the mended strands that a height has left without one: those that have come, and the one to the
/// left of each change.
pub(crate) fn wake_all(step: &Step<'_>, strands: &mut Vec<Strand>, changes: &[Change])
    requires ordered { AreOrdered step.now.edges.now step.now.lower.now step.now.upper.now strands.old.items }
    ensures ordered { AreOrdered step.now.edges.now step.now.lower.now step.now.upper.now strands.new.items }
    ensures bundles { bundles_of strands.new.items ≡ bundles_of strands.old.items }
    ensures low { (lows : List ℤ) → AreLow lows strands.old.items → AreLow lows strands.new.items }
{
    'changes: for change in changes {
        wake_from(
            step,
            strands,
            change.from.saturating_sub(1),
            change.from.saturating_add(change.come),
        );
    }
}

// Makes the keys of the strands from one place to another that have none.
fn wake_from(step: &Step<'_>, strands: &mut Vec<Strand>, from: usize, to: usize)
    requires ordered { AreOrdered step.now.edges.now step.now.lower.now step.now.upper.now strands.old.items }
    ensures ordered { AreOrdered step.now.edges.now step.now.lower.now step.now.upper.now strands.new.items }
    ensures bundles { bundles_of strands.new.items ≡ bundles_of strands.old.items }
    ensures low { (lows : List ℤ) → AreLow lows strands.old.items → AreLow lows strands.new.items }
{
    'strands: for i in from..to {
        if i < strands.len() && strands[i].wake == STALE {
            wake(step, strands, i);
        }
    }
}

// Makes the key of a strand.
fn wake(step: &Step<'_>, strands: &mut Vec<Strand>, i: usize)
    requires ordered { AreOrdered step.now.edges.now step.now.lower.now step.now.upper.now strands.old.items }
    requires there { i < length strands.old.items }
    requires keyless { (strand_at strands.old.items i).wake ≡ stale }
    ensures ordered { AreOrdered step.now.edges.now step.now.lower.now step.now.upper.now strands.new.items }
    ensures bundles { bundles_of strands.new.items ≡ bundles_of strands.old.items }
    ensures low { (lows : List ℤ) → AreLow lows strands.old.items → AreLow lows strands.new.items }
{
    let key = wake_of(step.edges, strands, i);
    strands[i].wake = key;
}

// A key up to which none of a strand's edges ends and, where it comes before the next, it lies to the left of it.
fn wake_of(edges: &[LeafEdge], strands: &[Strand], i: usize) -> i64
    requires within { All (λ e. IsEdgeWithin coordinate_limit e.edge) edges.now }
    requires strands { AreThere edges.now strands.now }
    requires there { i < length strands.now }
    ensures ends { (h : Level) → pos 0 <ℤ h.d → IsBelowKey h result
        → EndAbove edges.now h (strand_at strands.now i).bundle }
    ensures left { i + 1 < length strands.now → (at h : Level) → IsLevelWithin coordinate_limit at
        → ComesBefore edges.now at (strand_at strands.now i) (strand_at strands.now (i + 1)) → pos 0 <ℤ h.d
        → IsLower at h → IsBelowKey h result
        → LiesLeft edges.now h (strand_at strands.now i) (strand_at strands.now (i + 1)) }
{
    let end = end_key(edges, &strands[i]);
    if i + 1 == strands.len() {
        return end;
    }
    side_key(edges, &strands[i], &strands[i + 1], end)
}

// A key up to which, and up to each lower one, none of a strand's edges ends.
fn end_key(edges: &[LeafEdge], s: &Strand) -> i64
    requires there { All (λ k. k < length edges.now) s.now.bundle }
    ensures { (h : Level) (wake : ℤ) → pos 0 <ℤ h.d → wake ≤ℤ result → IsBelowKey h wake
        → EndAbove edges.now h s.now.bundle }
{
    whole_key(least_end(edges, s.bundle.as_slice()))
}

// A key up to which a strand lies to the left of another that it comes before, no greater than another key.
fn side_key(edges: &[LeafEdge], s: &Strand, t: &Strand, most: i64) -> i64
    requires within { All (λ e. IsEdgeWithin coordinate_limit e.edge) edges.now }
    requires first { All (λ k. k < length edges.now) s.now.bundle }
    requires second { All (λ k. k < length edges.now) t.now.bundle }
    ensures most { result ≤ℤ most }
    ensures left { (at h : Level) → IsLevelWithin coordinate_limit at → ComesBefore edges.now at s.now t.now
        → pos 0 <ℤ h.d → IsLower at h → IsBelowKey h result → LiesLeft edges.now h s.now t.now }
{
    let e = head(edges, &s.bundle);
    let f = head(edges, &t.bundle);
    meeting_key(&e, &f, most)
}

// The height at which the first of these edges ends.
fn least_end(edges: &[LeafEdge], numbers: &[u32]) -> i32
    requires there { All (λ k. k < length edges.now) numbers.now }
    ensures { All (λ k. result ≤ℤ (high (edge_at edges.now k)).y) numbers.now }
{
    let mut least = i32::MAX;
    'numbers: for k in numbers {
        least = least.min(end_of(edges, *k));
    }
    least
}

// The height at which an edge ends.
fn end_of(edges: &[LeafEdge], k: u32) -> i32
    requires { k < length edges.now }
    ensures { result ≡ (high (edge_at edges.now k)).y }
{
    high(&edges[k as usize].edge).y
}

/// The first edge of a bundle.
pub(crate) fn head(edges: &[LeafEdge], bundle: &Bundle) -> Edge
    requires there { All (λ k. k < length edges.now) bundle.now }
    ensures value { result ≡ head edges.now bundle.now }
    ensures within { All (λ e. IsEdgeWithin coordinate_limit e.edge) edges.now → IsEdgeWithin coordinate_limit result }
{
    match bundle.as_slice() {
        [] => Edge {
            a: Pt { x: 0, y: 0 },
            b: Pt { x: 0, y: 0 },
        },
        [k, ..] => edges[*k as usize].edge,
    }
}
