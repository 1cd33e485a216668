//! What passes at one place of a height.
ghost use Rattle.std.specs.Prelude.{◌≡◌, ◌++◌, IfOk, OnOk};
ghost use Rattle.slice_outlines.specs.Passing.{courses, edges_to, start_of, ended_at};
ghost use Rattle.slice_outlines.specs.Places.{ins_at, outs_at, ins_in, outs_in};
ghost use Rattle.slice_outlines.specs.Heights.{IsRunOf};

use crate::course::{Course, close, going_on, with};
use crate::mark::Mark;
use crate::run::Run;
use crate::side::{Side, course_of, courses};
use scad_geom::{Edge, Pt};
use std::alloc::AllocError;

/// The strands that come to a place from below, those that leave it upwards, and the place, rounded.
#[derive(Clone, Copy)]
pub(crate) struct Place<'a> {
    pub(crate) below: Side<'a>,
    pub(crate) above: Side<'a>,
    pub(crate) at: Pt,
}

/// Where one piece comes in and one goes out, of one name and direction, it goes on; else all that come in end. Gives
/// where those begin that go out. A piece along the height may come in, and one go out.
pub(crate) fn pass(
    given: &mut Vec<Edge>,
    place: &Place<'_>,
    flat_in: Option<Course>,
    flat_out: Option<Course>,
) -> Result<Pt, AllocError>
    ensures from { IfOk result (λ p. p ≡ start_of place.now.at (ins_at place.now flat_in)
        (outs_at place.now flat_out)) }
    ensures given { OnOk result (given.new.items ≡ given.old.items
        ++ ended_at place.now.at (ins_at place.now flat_in) (outs_at place.now flat_out)) }
{
    let ins = with(courses(&place.below), flat_in);
    let outs = with(courses(&place.above), flat_out);
    match going_on(&ins, &outs) {
        Some(from) => Ok(from),
        None => end_all(given, place, flat_in),
    }
}

fn end_all(
    given: &mut Vec<Edge>,
    place: &Place<'_>,
    flat_in: Option<Course>,
) -> Result<Pt, AllocError>
    ensures at { IfOk result (λ p. p ≡ place.now.at) }
    ensures given { OnOk result
        (given.new.items ≡ given.old.items ++ edges_to place.now.at (ins_at place.now flat_in)) }
{
    end_strands(given, &place.below, place.at)?;
    close(given, flat_in, place.at)?;
    Ok(place.at)
}

fn end_strands(given: &mut Vec<Edge>, side: &Side<'_>, at: Pt) -> Result<(), AllocError>
    ensures { OnOk result
        (given.new.items ≡ given.old.items ++ edges_to at (courses side.now.right side.now.marks.now)) }
{
    'strands: for i in 0..side.marks.len() {
        close(given, course_of(side, i), at)?;
    }
    Ok(())
}

/// What lies to the right of a place, below the height and above it, the pieces along the height, and the place,
/// rounded.
#[derive(Clone, Copy)]
pub(crate) struct Beside {
    pub(crate) below: bool,
    pub(crate) above: bool,
    pub(crate) flat_in: Option<Course>,
    pub(crate) flat_out: Option<Course>,
    pub(crate) at: Pt,
}

/// `pass`, of the strands of a part of a height.
pub(crate) fn pass_strands(
    given: &mut Vec<Edge>,
    below: &[Mark],
    above: &[Mark],
    run: &Run,
    beside: &Beside,
) -> Result<Pt, AllocError>
    requires { IsRunOf below.now above.now run.now }
    ensures from { IfOk result (λ p. p ≡ start_of beside.now.at (ins_in below.now run.now beside.now)
        (outs_in above.now run.now beside.now)) }
    ensures given { OnOk result (given.new.items ≡ given.old.items
        ++ ended_at beside.now.at (ins_in below.now run.now beside.now) (outs_in above.now run.now beside.now)) }
{
    let place = Place {
        below: Side {
            marks: &below[run.below..run.below_to],
            right: beside.below,
        },
        above: Side {
            marks: &above[run.above..run.above_to],
            right: beside.above,
        },
        at: beside.at,
    };
    pass(given, &place, beside.flat_in, beside.flat_out)
}
