//! The strands at a place on one side of a height.
ghost use Rattle.std.specs.Prelude.{◌≡◌, ◌<◌, ◌+◌, drop, length};
ghost use Rattle.slice_outlines.specs.Marks.{left_of_first, mark_at};
ghost use Rattle.slice_outlines.specs.Passing.{courses, course_between, alone, or_none};

use crate::course::{Alone, Course, with};
use crate::mark::Mark;

/// Neighbouring strands below or above a height, and the value to their right.
#[derive(Clone, Copy)]
pub(crate) struct Side<'a> {
    pub(crate) marks: &'a [Mark],
    pub(crate) right: bool,
}

/// The open pieces of the strands.
pub(crate) fn courses(side: &Side<'_>) -> Alone
    ensures { result ≡ alone (courses side.now.right side.now.marks.now) }
{
    let mut all = Alone::Nothing;
    'strands: for i in 0..side.marks.len() {
        all = with(all, course_of(side, i));
    }
    all
}

/// The piece of the strand at a place, where the values on both of its sides differ.
pub(crate) fn course_of(side: &Side<'_>, i: usize) -> Option<Course>
    requires { i < length side.now.marks.now }
    ensures { or_none result ≡ course_between (mark_at side.now.marks.now i).left
        (left_of_first (drop (i + 1) side.now.marks.now) side.now.right) (mark_at side.now.marks.now i) }
{
    let mark = side.marks[i];
    if mark.left == value_right(side, i) {
        return None;
    }
    Some(Course {
        name: mark.name,
        forward: mark.left,
        from: mark.from,
    })
}

fn value_right(side: &Side<'_>, i: usize) -> bool
    requires { i < length side.now.marks.now }
    ensures { result ≡ left_of_first (drop (i + 1) side.now.marks.now) side.now.right }
{
    if i + 1 < side.marks.len() {
        side.marks[i + 1].left
    } else {
        side.right
    }
}
