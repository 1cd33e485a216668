//! Strands that meet a height at one place.
ghost use Rattle.std.specs.Prelude.{◌≡◌, ◌<◌, ◌≤◌, ◌+◌, ◌++◌, ◌∷◌, [], ◌*ℤ◌, int_le, ℕ, true, take, drop, length, OnOk, All};
ghost use Rattle.std.specs.Ordering.{int_eq, int_cmp};
ghost use Rattle.scad_geom.specs.Limits.{coordinate_limit};
ghost use Rattle.scad_geom.specs.Line.{low, high, rise, x_at};
ghost use Rattle.scad_geom.specs.Within.{IsEdgeWithin};
ghost use Rattle.scad_geom.specs.Level.{IsLevelWithin};
ghost use Rattle.slice_bundles.specs.Bundles.{edge_at};
ghost use Rattle.slice_sweep.specs.Strands.{head, numbers_in, AreThere, strand_at, IsTogether};
ghost use Rattle.slice_sweep.specs.Changes.{has_started, older};

use crate::step::Step;
use crate::strand::Strand;
use crate::wake::head;
use scad_geom::line::{ends_from, low};
use scad_geom::wide::times;
use scad_geom::{Edge, LeafEdge, Level, cmp_x_at};
use std::alloc::AllocError;
use std::cmp::Ordering;

/// The place behind the strands that lie at one place with the one at a place.
pub(crate) fn group_end(step: &Step<'_>, strands: &[Strand], from: usize) -> usize
    requires strands { AreThere step.now.edges.now strands.now }
    requires there { from < length strands.now }
    ensures some { from < result }
    ensures within { result ≤ length strands.now }
    ensures together { (i : ℕ) → from ≤ i → i + 1 < result
        → IsTogether step.now.edges.now step.now.lower.now (strand_at strands.now i) (strand_at strands.now (i + 1)) }
    ensures apart { (i : ℕ) → i + 1 ≡ result → result < length strands.now
        → IsTogether step.now.edges.now step.now.lower.now (strand_at strands.now i) (strand_at strands.now (i + 1))
        → ⊥ }
{
    let mut end = from + 1;
    'group: while end < strands.len() && are_together(step, &strands[end - 1], &strands[end]) {
        end += 1;
    }
    end
}

fn are_together(step: &Step<'_>, s: &Strand, t: &Strand) -> bool
    requires first { All (λ k. k < length step.now.edges.now) s.now.bundle }
    requires second { All (λ k. k < length step.now.edges.now) t.now.bundle }
    ensures { result ≡ int_eq (x_at (head step.now.edges.now s.now.bundle) step.now.lower.now.n step.now.lower.now.d
        *ℤ rise (head step.now.edges.now t.now.bundle))
        (x_at (head step.now.edges.now t.now.bundle) step.now.lower.now.n step.now.lower.now.d
        *ℤ rise (head step.now.edges.now s.now.bundle)) }
{
    let e = head(step.edges, &s.bundle);
    let f = head(step.edges, &t.bundle);
    matches!(cmp_x_at(&e, &f, step.lower), Ordering::Equal)
}

/// Whether none of a strand's edges ends below the upper height.
pub(crate) fn goes_on(step: &Step<'_>, s: &Strand) -> bool
    requires there { All (λ k. k < length step.now.edges.now) s.now.bundle }
    ensures { result ≡ true → All (λ k. int_le step.now.upper.now.n
        ((high (edge_at step.now.edges.now k)).y *ℤ step.now.upper.now.d) ≡ true) s.now.bundle }
{
    all_reach(step.edges, s.bundle.as_slice(), step.upper)
}

fn all_reach(edges: &[LeafEdge], numbers: &[u32], upper: &Level) -> bool
    requires within { All (λ e. IsEdgeWithin coordinate_limit e.edge) edges.now }
    requires there { All (λ k. k < length edges.now) numbers.now }
    requires upper { IsLevelWithin coordinate_limit upper.now }
    ensures { result ≡ true → All (λ k. int_le upper.now.n
        ((high (edge_at edges.now k)).y *ℤ upper.now.d) ≡ true) numbers.now }
{
    'numbers: for k in numbers {
        if !ends_from(&edges[*k as usize].edge, upper) {
            return false;
        }
    }
    true
}

/// The numbers of the edges of the strands from one place to another.
pub(crate) fn members(
    strands: &[Strand],
    from: usize,
    to: usize,
    numbers: &mut Vec<u32>,
) -> Result<(), AllocError>
    requires from { from ≤ to }
    requires to { to ≤ length strands.now }
    ensures { OnOk result (numbers.new.items ++ numbers_in (drop to strands.now) ≡ numbers_in (drop from strands.now)) }
{
    numbers.clear();
    'strands: for i in from..to {
        numbers.extend_from_slice(strands[i].bundle.as_slice())?;
    }
    Ok(())
}

/// How many of the strands from one place to another were there below the height.
pub(crate) fn older(step: &Step<'_>, strands: &[Strand], from: usize, to: usize) -> usize
    requires strands { AreThere step.now.edges.now strands.now }
    requires from { from ≤ to }
    requires to { to ≤ length strands.now }
    ensures { result ≡ older step.now.edges.now step.now.lower.now (drop from (take to strands.now)) }
{
    let mut count = 0;
    'strands: for i in from..to {
        count += older_one(step, &strands[i]);
    }
    count
}

fn older_one(step: &Step<'_>, s: &Strand) -> usize
    requires { All (λ k. k < length step.now.edges.now) s.now.bundle }
    ensures value { result ≡ older step.now.edges.now step.now.lower.now (s.now ∷ []) }
    ensures most { result ≤ 1 }
{
    if has_started(step, s) { 0 } else { 1 }
}

// Whether a strand's first edge starts at the lower height.
fn has_started(step: &Step<'_>, s: &Strand) -> bool
    requires { All (λ k. k < length step.now.edges.now) s.now.bundle }
    ensures { result ≡ has_started step.now.edges.now step.now.lower.now s.now.bundle }
{
    matches!(
        by_start(&head(step.edges, &s.bundle), step.lower),
        Ordering::Equal
    )
}

/// How the height where an edge starts compares to a height.
pub(crate) fn by_start(e: &Edge, at: &Level) -> Ordering
    requires edge { IsEdgeWithin coordinate_limit e.now }
    requires at { IsLevelWithin coordinate_limit at.now }
    ensures { result ≡ int_cmp ((low e.now).y *ℤ at.now.d) at.now.n }
{
    times::<21, 44>(low(e).y as i128, at.d).cmp(&at.n)
}
