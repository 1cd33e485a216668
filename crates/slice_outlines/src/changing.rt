//! The values beside strands that are new above a height.
ghost use Rattle.std.specs.Prelude.{◌≡◌, ◌<◌, ◌≤◌, ◌+◌, true, drop, length};
ghost use Rattle.scad_geom.specs.declared.shape.Shape.{Shape};
ghost use Rattle.slice_sweep.specs.Front.{bundles_in};
ghost use Rattle.slice_border.specs.Beside.{AreMembers, left_value};
ghost use Rattle.slice_outlines.specs.Cursors.{StandOn, StandForSome, StayOn};
ghost use Rattle.slice_outlines.specs.MarkValue.{valued};
ghost use Rattle.slice_outlines.specs.Heights.{IsRunOf, IsBalancedBefore, AreValuedIn, KeepsMarks};

use crate::height::{Height, Open};
use crate::mark::{Mark, value_at};
use crate::run::Run;

/// Finds the values to the left of the strands above a run. To the left of the first it's that below the height.
pub(crate) fn find_values(height: &Height<'_>, kept: &mut Open, run: &Run)
    requires members { AreMembers height.now.edges.now (bundles_in height.now.front.now) }
    requires stands { StandForSome height.now.edges.now (bundles_in height.now.front.now) kept.old.cursors }
    requires size { length kept.old.marks.items ≡ length (bundles_in height.now.front.now) }
    requires there { IsRunOf height.now.below.now kept.old.marks.items run.now }
    ensures values { (shape : Shape) → IsBalancedBefore height.now shape run.now
        → StandOn height.now.edges.now shape (bundles_in height.now.front.now) kept.old.cursors
        → AreValuedIn height.now shape run.now kept.new.marks.items }
    ensures stands { StayOn height.now.edges.now (bundles_in height.now.front.now) kept.old.cursors kept.new.cursors }
    ensures rest { KeepsMarks run.now kept.old.marks.items kept.new.marks.items }
    ensures given { kept.new.given ≡ kept.old.given }
{
    if is_one(run) {
        set_value(
            &mut kept.marks,
            run.above,
            value_at(height.below, run.below),
        );
    } else {
        ask_cursor(height, kept, run);
    }
}

// Whether one strand alone is above a run.
fn is_one(run: &Run) -> bool
    requires { run.now.above ≤ run.now.above_to }
    ensures { result ≡ true → run.now.above + 1 ≡ run.now.above_to }
{
    run.above_to - run.above == 1
}

fn set_value(marks: &mut Vec<Mark>, i: usize, left: bool)
    requires { i < length marks.old.items }
    ensures { marks.new.items ≡ valued i left marks.old.items }
{
    marks[i].left = left;
}

fn ask_cursor(height: &Height<'_>, kept: &mut Open, run: &Run)
    requires members { AreMembers height.now.edges.now (bundles_in height.now.front.now) }
    requires stands { StandForSome height.now.edges.now (bundles_in height.now.front.now) kept.old.cursors }
    requires size { length kept.old.marks.items ≡ length (bundles_in height.now.front.now) }
    requires there { IsRunOf height.now.below.now kept.old.marks.items run.now }
    ensures values { (shape : Shape)
        → StandOn height.now.edges.now shape (bundles_in height.now.front.now) kept.old.cursors
        → AreValuedIn height.now shape run.now kept.new.marks.items }
    ensures stands { StayOn height.now.edges.now (bundles_in height.now.front.now) kept.old.cursors kept.new.cursors }
    ensures rest { KeepsMarks run.now kept.old.marks.items kept.new.marks.items }
    ensures given { kept.new.given ≡ kept.old.given }
{
    'strands: for i in run.above..run.above_to {
        ask_at(height, kept, run.above, i);
    }
}

// Finds the value to the left of the strand at a place of those from another one on.
fn ask_at(height: &Height<'_>, kept: &mut Open, from: usize, i: usize)
    requires members { AreMembers height.now.edges.now (bundles_in height.now.front.now) }
    requires stands { StandForSome height.now.edges.now (bundles_in height.now.front.now) kept.old.cursors }
    requires size { length kept.old.marks.items ≡ length (bundles_in height.now.front.now) }
    requires there { i < length kept.old.marks.items }
    ensures value { (shape : Shape)
        → StandOn height.now.edges.now shape (bundles_in height.now.front.now) kept.old.cursors
        → kept.new.marks.items ≡ valued i
        (left_value height.now.edges.now shape (drop i (bundles_in height.now.front.now))) kept.old.marks.items }
    ensures stands { StayOn height.now.edges.now (bundles_in height.now.front.now) kept.old.cursors kept.new.cursors }
    ensures given { kept.new.given ≡ kept.old.given }
{
    let left = kept.cursors.value_at(height.edges, height.front, from, i);
    set_value(&mut kept.marks, i, left);
}
