//! A tree whose layers are worked.
ghost use Rattle.std.specs.Prelude.{◌≡◌};
ghost use Rattle.std.specs.Option.{ForSome, option_copied};
ghost use Rattle.scad_slice.specs.Covers.{AreGiven, given-prop};

use crate::workpiece::Workpiece;
use plan_support::Covers;
use scad_tree::Tree;
use slice_work::{Print, Want};

/// A tree, how it is printed, and the gate round the work on each of its layers.
#[derive(Drop)]
pub struct TreeWork<'a, 'c, G> {
    pub tree: &'a Tree,
    pub print: Print,
    pub gate: &'a G,
    /// How many layers the tree has.
    pub count: u32,
    /// What stands below higher layers, where a plan with supports is wanted.
    pub covers: Option<&'c Covers>,
    ghost given: { ForSome (option_copied covers) (AreGiven count) } by { given-prop count (option_copied covers) },
}

/// The work on the layers of a workpiece.
pub fn work_on<'a, 'c, G>(
    workpiece: &Workpiece<'a, G>,
    want: Want,
    count: u32,
    covers: Option<&'c Covers>,
) -> TreeWork<'a, 'c, G>
    requires given { ForSome (option_copied covers) (AreGiven count) }

    ensures tree { result.tree.now ≡ workpiece.now.tree.now }
    ensures settings { result.print.settings ≡ workpiece.now.settings }
    ensures want { result.print.want ≡ want }
    ensures covers { option_copied result.covers ≡ option_copied covers.entry }
{
    TreeWork {
        tree: workpiece.tree,
        print: Print {
            settings: workpiece.settings,
            want,
            workers: workpiece.workers,
        },
        gate: workpiece.gate,
        count,
        covers,
    }
}
