//! The marks of the strands above a height.
ghost use Rattle.std.specs.Prelude.{◌≡◌, ◌≤◌, ◌+◌, ◌-◌, ◌++◌, map, take, drop, length, IfOk, OnOk};
ghost use Rattle.slice_sweep.specs.Front.{bundles_in};
ghost use Rattle.slice_outlines.specs.Above.{IsTold, AreTaken, new_mark, name_of};

use crate::mark::Mark;
use scad_geom::Pt;
use slice_sweep::{Change, Front};
use std::alloc::{AllocError, Global};

/// Those of the strands below it, where they stay, with the names of those that come in place of the others. What else
/// is said of these is to be found.
pub(crate) fn marks_above(
    alloc: Global,
    below: &[Mark],
    front: &Front,
    changes: &[Change],
) -> Result<Vec<Mark>, AllocError>
    requires told { IsTold below.now (bundles_in front.now) changes.now }
    ensures { (t : IsTold below.now (bundles_in front.now) changes.now)
        → IfOk result (λ v. AreTaken 0 changes.now t.groups below.now v.items) }
{
    let mut above = Vec::with_capacity(alloc, front.count())?;
    let mut passed = 0;
    'changes: for change in changes {
        passed = push_group(&mut above, below, front, change, passed)?;
    }
    above.extend_from_slice(&below[passed..])?;
    Ok(above)
}

// The marks of the strands that stay on the way to a change, and of those that come there. Gives how many strands below
// the height are passed.
fn push_group(
    above: &mut Vec<Mark>,
    below: &[Mark],
    front: &Front,
    change: &Change,
    passed: usize,
) -> Result<usize, AllocError>
    requires from { length above.old.items ≤ change.now.from }
    requires below { passed + (change.now.from - length above.old.items) + change.now.gone ≤ length below.now }
    requires above { change.now.from + change.now.come ≤ length (bundles_in front.now) }
    ensures passed { IfOk result
        (λ n. n ≡ passed + (change.now.from - length above.old.items) + change.now.gone) }
    ensures marks { OnOk result (above.new.items
        ≡ (above.old.items ++ take (change.now.from - length above.old.items) (drop passed below.now))
        ++ map new_mark (take change.now.come (drop change.now.from (bundles_in front.now)))) }
{
    let to = passed + (change.from - above.len());
    above.extend_from_slice(&below[passed..to])?;
    push_new(above, front, change)?;
    Ok(to + change.gone)
}

fn push_new(above: &mut Vec<Mark>, front: &Front, change: &Change) -> Result<(), AllocError>
    requires { change.now.from + change.now.come ≤ length (bundles_in front.now) }
    ensures { OnOk result (above.new.items ≡ above.old.items
        ++ map new_mark (take change.now.come (drop change.now.from (bundles_in front.now)))) }
{
    'strands: for i in change.from..change.from + change.come {
        above.push(Mark {
            name: name_of(front.bundle(i)),
            left: false,
            from: Pt { x: 0, y: 0 },
        })?;
    }
    Ok(())
}

fn name_of(bundle: &[u32]) -> u32
    ensures { result ≡ name_of bundle.now }
{
    match bundle {
        [] => 0,
        [k, ..] => *k,
    }
}
