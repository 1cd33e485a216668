//! What is kept beside each strand of the front.
ghost use Rattle.std.specs.Prelude.{◌≡◌, ◌≤◌, false, drop, length};
ghost use Rattle.slice_outlines.specs.Marks.{left_of_first, begun_in};

use scad_geom::Pt;

/// The least number of a strand's edges, the shape's value to its left, and the point, rounded, where its piece began,
/// if it has one.
#[derive(Clone, Copy)]
pub(crate) struct Mark {
    pub(crate) name: u32,
    pub(crate) left: bool,
    pub(crate) from: Pt,
}

/// The value to the left of the strand at a place, or to the right of all.
pub(crate) fn value_at(marks: &[Mark], i: usize) -> bool
    ensures { result ≡ left_of_first (drop i marks.now) false }
{
    i < marks.len() && marks[i].left
}

/// Lets strands begin at a point.
pub(crate) fn begin(marks: &mut Vec<Mark>, from: usize, to: usize, at: Pt)
    requires from { from ≤ to }
    requires to { to ≤ length marks.old.items }
    ensures { marks.new.items ≡ begun_in from to at marks.old.items }
{
    'marks: for i in from..to {
        marks[i].from = at;
    }
}
