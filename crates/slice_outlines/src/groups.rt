//! Groups of strands at one place, where nothing leads along the height.
ghost use Rattle.std.specs.Prelude.{◌≡◌, ◌<◌, ◌≤◌, ◌++◌, ◌∷◌, [], ◌&&◌, nat_le, true, false, None, List, length, IfOk, OnOk};
ghost use Rattle.scad_geom.specs.declared.point.Pt.{Pt};
ghost use Rattle.winding_laws.specs.Edges.{rounded};
ghost use Rattle.slice_pieces.specs.Spots.{point_of};
ghost use Rattle.slice_pieces.specs.declared.piece.Spot.{Spot};
ghost use Rattle.slice_sweep.specs.Front.{bundles_in};
ghost use Rattle.slice_border.specs.Beside.{AreMembers};
ghost use Rattle.slice_outlines.specs.Marks.{AreThere, mark_at};
ghost use Rattle.slice_outlines.specs.Stops.{AllPass};
ghost use Rattle.slice_outlines.specs.Cursors.{StandOn, StandForSome, StayOn};
ghost use Rattle.slice_outlines.specs.Heights.{Onwards, IsOf, IsBalancedBefore, IsGroupAt, IsNameOf, MeetAt, MeetAcross, IsCountOf};
ghost use Rattle.slice_outlines.specs.Along.{HasComeOver};
ghost use Rattle.slice_outlines.specs.Arrival.{HasReached, CanCount};
ghost use Rattle.slice_outlines.specs.Ahead.{AreBetween, AreStrandsAhead, HasComeTo, HasPassed, AreSkipped, KeepsRight, between, group_spots};
ghost use Rattle.slice_outlines.specs.declared.height.Height.{Height};
ghost use Rattle.slice_outlines.specs.declared.mark.Mark.{Mark};

use crate::changing::find_values;
use crate::height::{Height, Open};
use crate::mark::{Mark, begin, value_at};
use crate::passing::{Beside, pass_strands};
use crate::run::{Run, after, is_left};
use crate::spot::rounded_on;
use scad_geom::Pt;
use slice_sweep::Change;
use std::alloc::AllocError;

/// How many changes of a height are passed, and the strands of the last.
#[derive(Clone, Copy)]
pub(crate) struct Passed {
    pub(crate) count: usize,
    pub(crate) last: Run,
}

/// Passes the groups that lie to the left of a part of the height.
pub(crate) fn pass_groups(
    height: &Height<'_>,
    kept: &mut Open,
    changes: &[Change],
    passed: &Passed,
    limit: &Run,
) -> Result<Passed, AllocError>
    requires members { AreMembers height.now.edges.now (bundles_in height.now.front.now) }
    requires stands { StandForSome height.now.edges.now (bundles_in height.now.front.now) kept.old.cursors }
    requires size { length kept.old.marks.items ≡ length (bundles_in height.now.front.now) }
    requires pass_below { AllPass height.now.edges.now height.now.at.now height.now.below.now }
    requires pass_above { AllPass height.now.edges.now height.now.at.now kept.old.marks.items }
    requires there_below { AreThere height.now.edges.now height.now.below.now }
    requires there_above { AreThere height.now.edges.now kept.old.marks.items }
    requires behind { IsCountOf changes.now passed.now }
    requires told { CanCount changes.now }
    requires ahead { AreBetween height.now kept.old.marks.items changes.now passed.now limit.now }
    ensures passed { (w : AreBetween height.now kept.old.marks.items changes.now passed.now limit.now) (on : Onwards)
        (spots : List Spot) → IsOf height.now on → AreStrandsAhead on w.below w.above w.groups
        → HasComeTo on spots w.below w.above kept.old
        → OnOk result (HasComeTo on (spots ++ group_spots height.now.edges.now height.now.at.now w.groups)
        limit.now.below limit.now.above kept.new) }
    ensures next { (w : AreBetween height.now kept.old.marks.items changes.now passed.now limit.now)
        → IfOk result (λ p. HasPassed height.now changes.now w.rest limit.now p kept.old kept.new) }
{
    let mut passed = *passed;
    'changes: while passed.count < changes.len() {
        let run = after(&passed.last, &changes[passed.count]);
        if !is_left(&run, limit) {
            return Ok(passed);
        }
        pass_group(height, kept, &run)?;
        passed = Passed {
            count: passed.count + 1,
            last: run,
        };
    }
    Ok(passed)
}

/// Skips the groups that don't lie to the right of a part of the height.
pub(crate) fn skip_groups(changes: &[Change], passed: &Passed, limit: &Run) -> Passed
    requires behind { IsCountOf changes.now passed.now }
    requires told { CanCount changes.now }
    ensures behind { IsCountOf changes.now result }
    ensures next { (h : Height) (ms : List Mark)
        (w : AreBetween h ms changes.now passed.now (between limit.now.below_to limit.now.above_to))
        → AreSkipped changes.now w.rest limit.now result }
{
    let mut passed = *passed;
    'changes: while passed.count < changes.len() {
        let run = after(&passed.last, &changes[passed.count]);
        if is_right(&run, limit) {
            return passed;
        }
        passed = Passed {
            count: passed.count + 1,
            last: run,
        };
    }
    passed
}

// Whether one part lies to the right of another.
fn is_right(run: &Run, other: &Run) -> bool
    ensures { result ≡ (nat_le other.now.below_to run.now.below && nat_le other.now.above_to run.now.above) }
{
    run.below >= other.below_to && run.above >= other.above_to
}

fn pass_group(height: &Height<'_>, kept: &mut Open, run: &Run) -> Result<(), AllocError>
    requires members { AreMembers height.now.edges.now (bundles_in height.now.front.now) }
    requires stands { StandForSome height.now.edges.now (bundles_in height.now.front.now) kept.old.cursors }
    requires size { length kept.old.marks.items ≡ length (bundles_in height.now.front.now) }
    requires group { IsGroupAt height.now kept.old.marks.items run.now }
    requires pass_below { AllPass height.now.edges.now height.now.at.now height.now.below.now }
    requires pass_above { AllPass height.now.edges.now height.now.at.now kept.old.marks.items }
    requires there_below { AreThere height.now.edges.now height.now.below.now }
    requires there_above { AreThere height.now.edges.now kept.old.marks.items }
    ensures passed { (on : Onwards) (passed : List Spot) (s : Spot) → IsOf height.now on
        → MeetAt height.now kept.old.marks.items run.now (rounded (point_of s))
        → MeetAcross height.now kept.old.marks.items run.now s
        → IsBalancedBefore height.now on.shape run.now
        → StandOn height.now.edges.now on.shape (bundles_in height.now.front.now) kept.old.cursors
        → HasReached on passed s run.now kept.old
        → OnOk result (HasComeOver on (passed ++ s ∷ []) [] run.now run.now.below_to run.now.above_to None
        kept.new.marks.items kept.new.given.items kept.new.cursors) }
    ensures right { OnOk result (KeepsRight run.now kept.old.marks.items kept.new.marks.items) }
    ensures stands { OnOk result (StayOn height.now.edges.now (bundles_in height.now.front.now) kept.old.cursors
        kept.new.cursors) }
{
    let at = point_of(height, kept, run);
    find_values(height, kept, run);
    let right = value_at(height.below, run.below_to);
    let beside = Beside {
        below: right,
        above: right,
        flat_in: None,
        flat_out: None,
        at,
    };
    let from = pass_strands(&mut kept.given, height.below, &kept.marks, run, &beside)?;
    begin(&mut kept.marks, run.above, run.above_to, from);
    Ok(())
}

// Where the strands of a group meet the height, rounded.
fn point_of(height: &Height<'_>, kept: &Open, run: &Run) -> Pt
    requires group { IsGroupAt height.now kept.now.marks.items run.now }
    requires pass_below { AllPass height.now.edges.now height.now.at.now height.now.below.now }
    requires pass_above { AllPass height.now.edges.now height.now.at.now kept.now.marks.items }
    requires there_below { AreThere height.now.edges.now height.now.below.now }
    requires there_above { AreThere height.now.edges.now kept.now.marks.items }
    ensures { (p : Pt) → MeetAt height.now kept.now.marks.items run.now p → result ≡ p }
{
    let name = name_of(height, kept, run);
    rounded_on(&height.edges[name as usize].edge, height.at)
}

// The number of an edge of the first strand of a group.
fn name_of(height: &Height<'_>, kept: &Open, run: &Run) -> u32
    requires group { IsGroupAt height.now kept.now.marks.items run.now }
    requires pass_below { AllPass height.now.edges.now height.now.at.now height.now.below.now }
    requires pass_above { AllPass height.now.edges.now height.now.at.now kept.now.marks.items }
    requires there_below { AreThere height.now.edges.now height.now.below.now }
    requires there_above { AreThere height.now.edges.now kept.now.marks.items }
    ensures { IsNameOf height.now kept.now.marks.items run.now result }
{
    if has_below(run) {
        name_at(height.below, run.below)
    } else {
        name_at(&kept.marks, run.above)
    }
}

fn has_below(run: &Run) -> bool
    ensures some { result ≡ true → run.now.below < run.now.below_to }
    ensures none { result ≡ false → run.now.below_to ≤ run.now.below }
{
    run.below < run.below_to
}

fn name_at(marks: &[Mark], i: usize) -> u32
    requires { i < length marks.now }
    ensures { result ≡ (mark_at marks.now i).name }
{
    marks[i].name
}
