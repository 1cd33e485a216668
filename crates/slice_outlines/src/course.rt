//! Pieces as the sweep comes to them.
ghost use Rattle.std.specs.Prelude.{◌≡◌, ◌++◌, ◌∷◌, [], List, if◌then◌else◌, OnOk};
ghost use Rattle.winding_laws.specs.Edges.{has_length};
ghost use Rattle.sweep_laws.specs.Edges.{edge_between};
ghost use Rattle.slice_outlines.specs.declared.course.Course.{Course};
ghost use Rattle.slice_outlines.specs.Passing.{alone, or_none, going_on, edges_to};

use scad_geom::{Edge, Pt};
use slice_pieces::has_length;
use std::alloc::AllocError;

/// A piece by its name, whether it runs as the sweep does, with the inside on its left, and the point, rounded, where
/// the sweep came to it.
#[derive(Clone, Copy)]
pub(crate) struct Course {
    pub(crate) name: u32,
    pub(crate) forward: bool,
    pub(crate) from: Pt,
}

/// No piece, one alone, or more.
#[derive(Clone, Copy)]
pub(crate) enum Alone {
    Nothing,
    One(Course),
    More,
}

/// One more piece, or none.
pub(crate) fn with(all: Alone, course: Option<Course>) -> Alone
    ensures { (cs : List Course) → all ≡ alone cs → result ≡ alone (cs ++ or_none course) }
{
    match (all, course) {
        (all, None) => all,
        (Alone::Nothing, Some(course)) => Alone::One(course),
        _ => Alone::More,
    }
}

/// Where one piece came in, if it alone goes on as the only one that goes out.
pub(crate) fn going_on(ins: &Alone, outs: &Alone) -> Option<Pt>
    ensures { (vs ws : List Course) → ins.now ≡ alone vs → outs.now ≡ alone ws → result ≡ going_on vs ws }
{
    match (ins, outs) {
        (Alone::One(v), Alone::One(w)) => start_of_one(v, w),
        _ => None,
    }
}

fn start_of_one(v: &Course, w: &Course) -> Option<Pt>
    ensures { result ≡ going_on (v.now ∷ []) (w.now ∷ []) }
{
    if v.name == w.name && v.forward == w.forward {
        Some(v.from)
    } else {
        None
    }
}

/// Ends a piece at a point: its edge, unless both ends are one point.
pub(crate) fn close(given: &mut Vec<Edge>, course: Option<Course>, at: Pt) -> Result<(), AllocError>
    ensures { OnOk result (given.new.items ≡ given.old.items ++ edges_to at (or_none course)) }
{
    match course {
        None => Ok(()),
        Some(course) => push_edge(given, &edge_to(&course, at)),
    }
}

fn edge_to(course: &Course, at: Pt) -> Edge
    ensures { result ≡ edge_between course.now.forward course.now.from at }
{
    if course.forward {
        Edge {
            a: course.from,
            b: at,
        }
    } else {
        Edge {
            a: at,
            b: course.from,
        }
    }
}

fn push_edge(given: &mut Vec<Edge>, edge: &Edge) -> Result<(), AllocError>
    ensures { OnOk result (given.new.items ≡ given.old.items ++ (if has_length edge.now then edge.now ∷ [] else [])) }
{
    if has_length(edge) {
        given.push(*edge)?;
    }
    Ok(())
}
