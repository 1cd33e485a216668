//! The end that stands alone at a spot, sought among ends in order.
ghost use Rattle.std.specs.Prelude.{◌≡◌, ◌≤◌, true, false, length, IfSome, IfNone};
ghost use Rattle.std.specs.List.Sorted.{IsSorted, IsPartitionPoint};
ghost use Rattle.std.specs.Ordering.{is_lt};
ghost use Rattle.slice_snap.specs.EndOrder.{end_cmp, ties, holds_at, times_at, IsAlone};

use crate::end::End;
use crate::end_order::compare;

/// The place of the piece whose end alone lies where another does.
pub(crate) fn alone(ends: &[End], at: &End) -> Option<usize>
    requires { IsSorted end_cmp ends.now }
    ensures some { IfSome result (λ piece. IsAlone at.now ends.now piece) }
    ensures none { IfNone result (times_at at.now ends.now ≡ 1 → ⊥) }
{
    let first = first_from(ends, at);
    if ties_at(ends, first, at) && !ties_at(ends, first + 1, at) {
        Some(ends[first].place)
    } else {
        None
    }
}

// The place of the first end that doesn't come before another.
fn first_from(ends: &[End], at: &End) -> usize
    requires { IsSorted end_cmp ends.now }
    ensures bound { result ≤ length ends.now }
    ensures point { IsPartitionPoint (λ e. is_lt (end_cmp e at.now) ≡ true) (λ e. is_lt (end_cmp e at.now) ≡ false) ends.now result }
{
    ends.partition_point(|e| compare(e, at).is_lt())
}

fn ties_at(ends: &[End], place: usize, at: &End) -> bool
    ensures { result ≡ holds_at (ties at.now) ends.now place }
{
    place < ends.len() && compare(at, &ends[place]).is_eq()
}
