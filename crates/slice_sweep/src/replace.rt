//! Strands put in the place of others.
ghost use Rattle.std.specs.Prelude.{◌≡◌, ◌≤◌, ◌+◌, ◌++◌, take, drop, length, IfOk, OnOk};
ghost use Rattle.slice_sweep.specs.Strands.{fresh, weakened};

use crate::key::STALE;
use crate::strand::Strand;
use slice_bundles::Bundle;
use std::alloc::{AllocError, Global};

/// Takes the key of the strand before a place.
pub(crate) fn weaken(strands: &mut Vec<Strand>, place: usize)
    requires { place ≤ length strands.old.items }
    ensures { strands.new.items ≡ weakened (take place strands.old.items) ++ drop place strands.old.items }
{
    if place > 0 {
        strands[place - 1].wake = STALE;
    }
}

/// Puts bundles, as strands without keys, in the place of the strands from one place to another.
pub(crate) fn replace(
    alloc: Global,
    strands: &mut Vec<Strand>,
    from: usize,
    to: usize,
    bundles: Vec<Bundle>,
) -> Result<(), AllocError>
    requires from { from ≤ to }
    requires to { to ≤ length strands.old.items }
    ensures { OnOk result
        (strands.new.items ≡ take from strands.old.items ++ (fresh bundles.items ++ drop to strands.old.items)) }
{
    if bundles.len() == to - from {
        overwrite(strands, from, bundles);
        return Ok(());
    }
    if from < to && bundles.len() == to - from - 1 {
        overwrite_less(strands, from, to, bundles);
        return Ok(());
    }
    exchange(strands, from, to, without_keys(alloc, bundles)?)
}

// Writes bundles over the strands from a place on: as many come as go, so no other strand is moved.
fn overwrite(strands: &mut Vec<Strand>, from: usize, bundles: Vec<Bundle>)
    requires { from + length bundles.items ≤ length strands.old.items }
    ensures { strands.new.items ≡ take from strands.old.items
        ++ (fresh bundles.items ++ drop (from + length bundles.items) strands.old.items) }
{
    let mut place = from;
    'bundles: for bundle in bundles {
        strands[place] = Strand {
            bundle,
            wake: STALE,
        };
        place += 1;
    }
}

// Writes bundles over all strands from one place to another but the last, which goes: the others move once.
fn overwrite_less(strands: &mut Vec<Strand>, from: usize, to: usize, bundles: Vec<Bundle>)
    requires size { from + length bundles.items + 1 ≡ to }
    requires to { to ≤ length strands.old.items }
    ensures { strands.new.items ≡ take from strands.old.items ++ (fresh bundles.items ++ drop to strands.old.items) }
{
    overwrite(strands, from, bundles);
    strands.remove(to - 1);
}

fn without_keys(alloc: Global, bundles: Vec<Bundle>) -> Result<Vec<Strand>, AllocError>
    ensures { IfOk result (λ v. v.items ≡ fresh bundles.items) }
{
    let mut out = Vec::with_capacity(alloc, bundles.len())?;
    'bundles: for bundle in bundles {
        out.push(Strand {
            bundle,
            wake: STALE,
        })?;
    }
    Ok(out)
}

fn exchange(
    strands: &mut Vec<Strand>,
    from: usize,
    to: usize,
    others: Vec<Strand>,
) -> Result<(), AllocError>
    requires from { from ≤ to }
    requires to { to ≤ length strands.old.items }
    ensures { OnOk result
        (strands.new.items ≡ take from strands.old.items ++ (others.items ++ drop to strands.old.items)) }
{
    let mut new = others;
    let mut tail = strands.split_off(to)?;
    strands.truncate(from);
    strands.append(&mut new)?;
    strands.append(&mut tail)?;
    Ok(())
}
