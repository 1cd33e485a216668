//! The strands at a height, mended one place after another.
ghost use Rattle.std.specs.Prelude.{◌≡◌, ◌<◌, ◌≤◌, ◌+◌, ◌-◌, ◌*ℤ◌, ◌++◌, ◌∷◌, [], int_le, true, ℕ, List, take, drop, length, IfOk, OnOk, All};
ghost use Rattle.std.specs.List.{AllByRecursion};
ghost use Rattle.scad_geom.specs.Line.{high};
ghost use Rattle.scad_geom.specs.Heights.{AreNeighbours};
ghost use Rattle.slice_bundles.specs.Bundles.{edge_at};
ghost use Rattle.slice_sweep.specs.declared.change.Change.{Change};
ghost use Rattle.slice_sweep.specs.declared.strand.Strand.{Strand};
ghost use Rattle.slice_sweep.specs.Strands.{AreWaiting, AreThere, bundles_of, strand_at};
ghost use Rattle.slice_sweep.specs.Mending.{AreOrdered, AreMendedTo, KeepTimes, IsGroup};
ghost use Rattle.slice_sweep.specs.Lows.{AreLow};
ghost use Rattle.slice_sweep.specs.Changes.{AreChanges, older, started};
ghost use Rattle.slice_sweep.specs.Places.{came_from_below, StartsKeyless, ArePlacedTo};

use crate::asleep::pass_asleep;
use crate::change::Change;
use crate::group::{goes_on, group_end, members, older};
use crate::leave::leaving;
use crate::lows::forget;
use crate::replace::{replace, weaken};
use crate::room::Room;
use crate::step::Step;
use crate::strand::Strand;
use std::alloc::AllocError;

/// Puts the strands at the lower height into the order that they have above it, and tells what changes.
pub(crate) fn mend(
    step: &Step<'_>,
    strands: &mut Vec<Strand>,
    lows: &mut Vec<i64>,
    room: &mut Room,
) -> Result<Vec<Change>, AllocError>
    requires neighbours { AreNeighbours step.now.edges.now step.now.lower.now step.now.upper.now }
    requires waiting { AreWaiting step.now.edges.now step.now.lower.now strands.old.items }
    requires low { AreLow lows.old.items strands.old.items }
    ensures low { OnOk result (AreLow lows.new.items strands.new.items) }
    ensures ordered { OnOk result
        (AreOrdered step.now.edges.now step.now.lower.now step.now.upper.now strands.new.items) }
    ensures numbers { OnOk result (KeepTimes step.now.edges.now step.now.lower.now step.now.upper.now
        strands.old.items strands.new.items) }
    ensures changes { IfOk result (λ v. AllByRecursion (StartsKeyless step.now.edges.now step.now.lower.now)
        strands.old.items → AreChanges step.now.edges.now step.now.lower.now
        (came_from_below step.now.edges.now step.now.lower.now (bundles_of strands.old.items))
        (bundles_of strands.new.items) v.items) }
{
    let mut changes = Vec::new(step.alloc);
    let mut place = 0;
    'places: while place < strands.len() {
        place = mend_at(step, strands, lows, &mut changes, room, place)?;
    }
    Ok(changes)
}

// Mends the strands that lie at one place with the first that isn't mended, and gives the place behind them.
fn mend_at(
    step: &Step<'_>,
    strands: &mut Vec<Strand>,
    lows: &mut Vec<i64>,
    changes: &mut Vec<Change>,
    room: &mut Room,
    place: usize,
) -> Result<usize, AllocError>
    requires neighbours { AreNeighbours step.now.edges.now step.now.lower.now step.now.upper.now }
    requires mended { AreMendedTo step.now.edges.now step.now.lower.now step.now.upper.now place strands.old.items }
    requires there { place < length strands.old.items }
    requires low { AreLow lows.old.items strands.old.items }
    ensures low { OnOk result (AreLow lows.new.items strands.new.items) }
    ensures mended { IfOk result (λ n. AreMendedTo step.now.edges.now step.now.lower.now step.now.upper.now n
        strands.new.items) }
    ensures numbers { OnOk result (KeepTimes step.now.edges.now step.now.lower.now step.now.upper.now
        strands.old.items strands.new.items) }
    ensures fewer { IfOk result (λ n. length strands.new.items - n < length strands.old.items - place) }
    ensures told { IfOk result (λ n. (all : List Strand)
        → ArePlacedTo step.now.edges.now step.now.lower.now place all strands.old.items changes.old.items
        → ArePlacedTo step.now.edges.now step.now.lower.now n all strands.new.items changes.new.items) }
{
    let awake = pass_asleep(step, strands, lows, place);
    if awake == strands.len() {
        return Ok(awake);
    }
    mend_awake(step, strands, lows, changes, room, awake)
}

fn mend_awake(
    step: &Step<'_>,
    strands: &mut Vec<Strand>,
    lows: &mut Vec<i64>,
    changes: &mut Vec<Change>,
    room: &mut Room,
    place: usize,
) -> Result<usize, AllocError>
    requires neighbours { AreNeighbours step.now.edges.now step.now.lower.now step.now.upper.now }
    requires mended { AreMendedTo step.now.edges.now step.now.lower.now step.now.upper.now place strands.old.items }
    requires there { place < length strands.old.items }
    ensures low { OnOk result (AreLow lows.old.items strands.old.items → AreLow lows.new.items strands.new.items) }
    ensures mended { IfOk result (λ n. AreMendedTo step.now.edges.now step.now.lower.now step.now.upper.now n
        strands.new.items) }
    ensures numbers { OnOk result (KeepTimes step.now.edges.now step.now.lower.now step.now.upper.now
        strands.old.items strands.new.items) }
    ensures fewer { IfOk result (λ n. length strands.new.items - n < length strands.old.items - place) }
    ensures told { IfOk result (λ n. (all : List Strand)
        → ArePlacedTo step.now.edges.now step.now.lower.now place all strands.old.items changes.old.items
        → ArePlacedTo step.now.edges.now step.now.lower.now n all strands.new.items changes.new.items) }
{
    let end = group_end(step, strands, place);
    let gone = older(step, strands, place, end);
    if is_alone(step, strands, place, end) {
        tell_start(changes, place, gone)?;
        return Ok(place + 1);
    }
    let behind = regroup(step, strands, lows, room, place, end)?;
    tell(
        changes,
        Change {
            from: place,
            gone,
            come: behind - place,
        },
    )?;
    Ok(behind)
}

// Tells of a strand that is alone at its place, if it has come.
fn tell_start(changes: &mut Vec<Change>, place: usize, gone: usize) -> Result<(), AllocError>
    ensures { OnOk result (changes.new.items ≡ changes.old.items ++ started place gone) }
{
    if gone == 0 {
        tell(
            changes,
            Change {
                from: place,
                gone: 0,
                come: 1,
            },
        )?;
    }
    Ok(())
}

fn tell(changes: &mut Vec<Change>, change: Change) -> Result<(), AllocError>
    ensures { OnOk result (changes.new.items ≡ changes.old.items ++ change ∷ []) }
{
    changes.push(change)?;
    Ok(())
}

// Whether a group is one strand in which nothing ends.
fn is_alone(step: &Step<'_>, strands: &[Strand], place: usize, end: usize) -> bool
    requires strands { AreThere step.now.edges.now strands.now }
    requires there { place < length strands.now }
    requires place { place < end }
    ensures end { result ≡ true → end ≡ place + 1 }
    ensures on { result ≡ true → All (λ k. int_le step.now.upper.now.n ((high (edge_at step.now.edges.now k)).y
        *ℤ step.now.upper.now.d) ≡ true) (strand_at strands.now place).bundle }
{
    end - place == 1 && goes_on(step, &strands[place])
}

// Puts in their place the bundles of those of their edges that go on.
fn regroup(
    step: &Step<'_>,
    strands: &mut Vec<Strand>,
    lows: &mut Vec<i64>,
    room: &mut Room,
    from: usize,
    to: usize,
) -> Result<usize, AllocError>
    requires neighbours { AreNeighbours step.now.edges.now step.now.lower.now step.now.upper.now }
    requires mended { AreMendedTo step.now.edges.now step.now.lower.now step.now.upper.now from strands.old.items }
    requires group { IsGroup step.now.edges.now step.now.lower.now from to strands.old.items }
    ensures low { OnOk result (AreLow lows.old.items strands.old.items → AreLow lows.new.items strands.new.items) }
    ensures mended { IfOk result (λ n. AreMendedTo step.now.edges.now step.now.lower.now step.now.upper.now n
        strands.new.items) }
    ensures numbers { OnOk result (KeepTimes step.now.edges.now step.now.lower.now step.now.upper.now
        strands.old.items strands.new.items) }
    ensures fewer { IfOk result (λ n. length strands.new.items - n < length strands.old.items - from) }
    ensures behind { IfOk result (λ n. from ≤ n) }
    ensures told { IfOk result (λ n. (all : List Strand) (cs : List Change) (gone : ℕ)
        → gone ≡ older step.now.edges.now step.now.lower.now (drop from (take to strands.old.items))
        → ArePlacedTo step.now.edges.now step.now.lower.now from all strands.old.items cs
        → ArePlacedTo step.now.edges.now step.now.lower.now n all strands.new.items
        (cs ++ record { from = from; gone = gone; come = n - from } ∷ [])) }
{
    members(strands, from, to, &mut room.numbers)?;
    let bundles = leaving(step, &room.numbers, &mut room.rays)?;
    let end = from + bundles.len();
    forget(lows, from, to, end);
    weaken(strands, from);
    replace(step.alloc, strands, from, to, bundles)?;
    Ok(end)
}
