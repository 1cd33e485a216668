//! Strands below a height and those above it that lie in the same part of it.
ghost use Rattle.std.specs.Prelude.{◌≡◌, ◌≤◌, ◌<◌, ◌+◌, ◌^◌, ◌&&◌, nat_le};
ghost use Rattle.slice_outlines.specs.Runs.{first, after};

use slice_sweep::Change;

/// From where to where the strands of a part of a height stand below it, and from where to where above it.
#[derive(Clone, Copy)]
pub(crate) struct Run {
    pub(crate) below: usize,
    pub(crate) below_to: usize,
    pub(crate) above: usize,
    pub(crate) above_to: usize,
}

/// The left end of a height.
pub(crate) fn first() -> Run
    ensures { result ≡ first }
{
    Run {
        below: 0,
        below_to: 0,
        above: 0,
        above_to: 0,
    }
}

/// The strands of a change, behind a run up to which all are counted.
pub(crate) fn after(done: &Run, change: &Change) -> Run
    requires later { done.now.above_to ≤ change.now.from }
    requires fits { done.now.below_to + change.now.from + change.now.gone + change.now.come < 2 ^ 64 }
    ensures { result ≡ after done.now change.now }
{
    let below = done.below_to + (change.from - done.above_to);
    Run {
        below,
        below_to: below + change.gone,
        above: change.from,
        above_to: change.from + change.come,
    }
}

/// Whether one part lies to the left of another.
pub(crate) fn is_left(run: &Run, other: &Run) -> bool
    ensures { result ≡ (nat_le run.now.below_to other.now.below && nat_le run.now.above_to other.now.above) }
{
    run.below_to <= other.below && run.above_to <= other.above
}
