//! Strands that sleep, passed block by block.
ghost use Rattle.std.specs.Prelude.{◌≡◌, ◌<◌, ◌≤◌, ◌/◌, true, ℕ, List, length, slice_index_or};
ghost use Rattle.scad_geom.specs.Heights.{AreNeighbours};
ghost use Rattle.slice_sweep.specs.declared.change.Change.{Change};
ghost use Rattle.slice_sweep.specs.declared.strand.Strand.{Strand};
ghost use Rattle.slice_sweep.specs.Keys.{IsBelowKey, stale};
ghost use Rattle.slice_sweep.specs.Strands.{strand_at};
ghost use Rattle.slice_sweep.specs.Lows.{block, AreLow};
ghost use Rattle.slice_sweep.specs.Mending.{AreMendedTo};
ghost use Rattle.slice_sweep.specs.Places.{ArePlacedTo};

use crate::lows::{BLOCK, block_end};
use crate::step::Step;
use crate::strand::Strand;

/// The first strand from a place on that isn't asleep, or the place behind all: those before it stay as they are.
pub(crate) fn pass_asleep(step: &Step<'_>, strands: &[Strand], lows: &[i64], from: usize) -> usize
    requires neighbours { AreNeighbours step.now.edges.now step.now.lower.now step.now.upper.now }
    requires mended { AreMendedTo step.now.edges.now step.now.lower.now step.now.upper.now from strands.now }
    requires low { AreLow lows.now strands.now }
    requires there { from < length strands.now }
    ensures mended { AreMendedTo step.now.edges.now step.now.lower.now step.now.upper.now result strands.now }
    ensures from { from ≤ result }
    ensures within { result ≤ length strands.now }
    ensures told { (all : List Strand) (cs : List Change)
        → ArePlacedTo step.now.edges.now step.now.lower.now from all strands.now cs
        → ArePlacedTo step.now.edges.now step.now.lower.now result all strands.now cs }
{
    let mut place = from;
    let mut next = pass_block(step, strands, lows, from);
    'asleep: while place < next {
        place = next;
        next = pass_block(step, strands, lows, next);
    }
    place
}

// The first strand from a place on that isn't asleep, or the place behind its block.
fn pass_block(step: &Step<'_>, strands: &[Strand], lows: &[i64], place: usize) -> usize
    requires low { AreLow lows.now strands.now }
    requires there { place ≤ length strands.now }
    ensures from { place ≤ result }
    ensures within { result ≤ length strands.now }
    ensures asleep { (i : ℕ) → place ≤ i → i < result
        → IsBelowKey step.now.lower.now (strand_at strands.now i).wake }
{
    let end = block_end(strands, place);
    if sleeps(step, strands, lows, place) {
        return end;
    }
    pass_each(step, strands, place, end)
}

// Whether the block of a place is known to sleep at the lower height.
fn sleeps(step: &Step<'_>, strands: &[Strand], lows: &[i64], place: usize) -> bool
    requires low { AreLow lows.now strands.now }
    ensures { result ≡ true → (i : ℕ) → i / block ≡ place / block → i < length strands.now
        → IsBelowKey step.now.lower.now (strand_at strands.now i).wake }
{
    let b = place / BLOCK;
    b < lows.len() && is_later(step, low_at(lows, b))
}

fn low_at(lows: &[i64], b: usize) -> i64
    requires { b < length lows.now }
    ensures { result ≡ slice_index_or lows.now b stale }
{
    lows[b]
}

fn pass_each(step: &Step<'_>, strands: &[Strand], from: usize, to: usize) -> usize
    requires from { from ≤ to }
    requires to { to ≤ length strands.now }
    ensures from { from ≤ result }
    ensures within { result ≤ to }
    ensures asleep { (i : ℕ) → from ≤ i → i < result → IsBelowKey step.now.lower.now (strand_at strands.now i).wake }
{
    let mut place = from;
    'asleep: while place < to && is_asleep(step, strands, place) {
        place += 1;
    }
    place
}

// Whether the lower height lies below the key of the strand at a place.
fn is_asleep(step: &Step<'_>, strands: &[Strand], place: usize) -> bool
    requires { place < length strands.now }
    ensures { result ≡ true → IsBelowKey step.now.lower.now (strand_at strands.now place).wake }
{
    is_later(step, strands[place].wake)
}

fn is_later(step: &Step<'_>, wake: i64) -> bool
    ensures { result ≡ true → IsBelowKey step.now.lower.now wake }
{
    step.key < wake as i128
}
