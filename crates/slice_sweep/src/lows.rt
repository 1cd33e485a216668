//! Keys of blocks of strands: as long as a height lies below a block's key, all strands of the block sleep.
ghost use Rattle.std.specs.Prelude.{◌≡◌, ◌<◌, ◌≤◌, ◌+◌, ◌-◌, ◌/◌, ◌≤ℤ◌, ℕ, List, length, slice_index_or, OnOk};
ghost use Rattle.slice_sweep.specs.declared.strand.Strand.{Strand};
ghost use Rattle.slice_sweep.specs.Keys.{stale};
ghost use Rattle.slice_sweep.specs.Strands.{strand_at};
ghost use Rattle.slice_sweep.specs.Lows.{block, IsLow, AreLow, KeysStay};

use crate::key::STALE;
use crate::strand::Strand;
use std::alloc::AllocError;

/// How many strands a block has.
pub(crate) const BLOCK: usize = 32;

// A front of fewer strands is looked through as fast without.
const WIDE: usize = 128;

/// The place behind the block of a place, or behind all strands.
pub(crate) fn block_end(strands: &[Strand], place: usize) -> usize
    requires { place ≤ length strands.now }
    ensures from { place ≤ result }
    ensures within { result ≤ length strands.now }
    ensures of_block { (i : ℕ) → place ≤ i → i < result → i / block ≡ place / block }
    ensures whole { (i : ℕ) → i / block ≡ place / block → i < length strands.now → i < result }
{
    let room = strands.len() - place;
    let more = BLOCK - place % BLOCK;
    if more < room {
        place + more
    } else {
        strands.len()
    }
}

/// Of the blocks of strands that change from one place on nothing is known any more.
pub(crate) fn forget_from(lows: &mut Vec<i64>, from: usize)
    ensures { (old new : List Strand) → AreLow lows.old.items old → KeysStay from (length new) old new
        → AreLow lows.new.items new }
{
    lows.truncate(from / BLOCK);
}

/// Of the blocks of strands that change between one place and another nothing is known any more. Where as many come
/// as go these are few.
pub(crate) fn forget(lows: &mut Vec<i64>, from: usize, to: usize, end: usize)
    ensures { (old new : List Strand) → AreLow lows.old.items old → KeysStay (from - 1) (length new) old new
        → (end ≡ to → KeysStay (from - 1) to old new) → AreLow lows.new.items new }
{
    let first = from.saturating_sub(1);
    if end == to {
        forget_within(lows, first, to);
    } else {
        forget_from(lows, first);
    }
}

fn forget_within(lows: &mut Vec<i64>, from: usize, to: usize)
    ensures { (old new : List Strand) → AreLow lows.old.items old → KeysStay from to old new
        → AreLow lows.new.items new }
{
    'row: for b in from / BLOCK..to / BLOCK + 1 {
        forget_block(lows, b);
    }
}

fn forget_block(lows: &mut Vec<i64>, b: usize)
    ensures size { length lows.new.items ≡ length lows.old.items }
    ensures block { slice_index_or lows.new.items b stale ≡ stale }
    ensures others { (k : ℕ) → (k ≡ b → ⊥)
        → slice_index_or lows.new.items k stale ≡ slice_index_or lows.old.items k stale }
{
    if b < lows.len() {
        lows[b] = STALE;
    }
}

/// Finds the keys of the blocks of which nothing is known. Narrow fronts have none.
pub(crate) fn find_lows(strands: &[Strand], lows: &mut Vec<i64>) -> Result<(), AllocError>
    requires low { AreLow lows.old.items strands.now }
    ensures low { OnOk result (AreLow lows.new.items strands.now) }
{
    if strands.len() < WIDE {
        lows.clear();
        return Ok(());
    }
    lows.resize(strands.len() / BLOCK + 1, STALE)?;
    find_stale(strands, lows);
    Ok(())
}

fn find_stale(strands: &[Strand], lows: &mut Vec<i64>)
    requires low { AreLow lows.old.items strands.now }
    requires size { length lows.old.items ≤ length strands.now / block + 1 }
    ensures low { AreLow lows.new.items strands.now }
{
    'row: for b in 0..lows.len() {
        if lows[b] == STALE {
            lows[b] = least_of(strands, b);
        }
    }
}

// The least key of the strands of a block.
fn least_of(strands: &[Strand], b: usize) -> i64
    requires { b ≤ length strands.now / block }
    ensures { IsLow strands.now b result }
{
    let from = b * BLOCK;
    least_key(strands, from, block_end(strands, from))
}

fn least_key(strands: &[Strand], from: usize, to: usize) -> i64
    requires { to ≤ length strands.now }
    ensures { (i : ℕ) → from ≤ i → i < to → result ≤ℤ (strand_at strands.now i).wake }
{
    let mut least = i64::MAX;
    'strands: for i in from..to {
        least = least.min(strands[i].wake);
    }
    least
}
