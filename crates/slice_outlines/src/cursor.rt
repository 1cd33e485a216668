//! The shape's value between strands.
ghost use Rattle.std.specs.Prelude.{◌≡◌, ◌<◌, ◌≤◌, ◌+◌, ◌-◌, ◌^◌, [], ℕ, List, None, length, drop, true, IfOk, IfSome, All};
ghost use Rattle.std.specs.List.{AllZip};
ghost use Rattle.scad_geom.specs.declared.level.LeafEdge.{LeafEdge};
ghost use Rattle.scad_geom.specs.declared.shape.Shape.{Shape};
ghost use Rattle.scad_geom.specs.Limits.{coordinate_limit};
ghost use Rattle.scad_geom.specs.Within.{IsEdgeWithin};
ghost use Rattle.scad_geom.specs.Level.{IsLevelWithin};
ghost use Rattle.slice_bundles.specs.Bundles.{edge_at};
ghost use Rattle.slice_sweep.specs.Front.{bundles_in, IsReadyFor};
ghost use Rattle.slice_sweep.specs.Changes.{Group, Tell};
ghost use Rattle.slice_border.specs.Beside.{AreMembers, left_value};
ghost use Rattle.slice_outlines.specs.declared.mark.Mark.{Mark};
ghost use Rattle.slice_outlines.specs.Flats.{LiesAside};
ghost use Rattle.slice_outlines.specs.Marks.{mark_at, spot_at, AreThere, IsNamed};
ghost use Rattle.slice_outlines.specs.Stops.{AllPass};
ghost use Rattle.slice_outlines.specs.Cursor.{is_same_place, StandsOn, Stands, StaysOn, IsApartAt, IsClearAt, CanShift, IsShifted, Fit};

use crate::aside::in_way;
use crate::flat::Flat;
use crate::mark::Mark;
use crate::run::{Run, after, first};
use crate::stops::stop_of;
use scad_geom::{LeafEdge, Level, Shape, cmp_x_at};
use slice_border::{Stop, Tally, compare, whole_spot};
use slice_sweep::{Change, Front};
use std::alloc::{AllocError, Global};

/// A place on the front, and the headings of the strands from there on.
#[derive(Drop)]
pub(crate) struct Cursor {
    tally: Tally,
    at: usize,
}

impl Cursor {
    /// At the right end of a front of so many strands.
    pub(crate) fn new(
        alloc: Global,
        edges: &[LeafEdge],
        shape: &Shape,
        strands: usize,
    ) -> Result<Cursor, AllocError>
        ensures { IfOk result (λ c. (bundles : List (List ℕ)) → length bundles ≡ strands
            → StandsOn edges.now shape.now bundles c) }
    {
        let tally = Tally::new(alloc, edges, shape)?;
        Ok(Cursor { tally, at: strands })
    }

    /// The value to the left of the strand at a place, to which it goes.
    pub(crate) fn value_at(&mut self, edges: &[LeafEdge], front: &Front, place: usize) -> bool
        requires few { length edges.now < 2 ^ 32 }
        requires members { AreMembers edges.now (bundles_in front.now) }
        requires stands { Stands edges.now (bundles_in front.now) self.old }
        requires there { place ≤ length (bundles_in front.now) }
        ensures value { (shape : Shape) → StandsOn edges.now shape (bundles_in front.now) self.old
            → result ≡ left_value edges.now shape (drop place (bundles_in front.now)) }
        ensures stands { StaysOn edges.now (bundles_in front.now) self.old self.new }
        ensures place { self.new.at ≡ place }
    {
        self.go_left(edges, front, place);
        self.go_right(edges, front, place);
        self.tally.value()
    }

    /// Goes to the right end.
    pub(crate) fn rest(&mut self, edges: &[LeafEdge], front: &Front)
        requires few { length edges.now < 2 ^ 32 }
        requires members { AreMembers edges.now (bundles_in front.now) }
        requires stands { Stands edges.now (bundles_in front.now) self.old }
        ensures stands { StaysOn edges.now (bundles_in front.now) self.old self.new }
        ensures place { self.new.at ≡ length (bundles_in front.now) }
    {
        self.go_right(edges, front, front.count());
    }

    /// Leaves all strands, for a front without any.
    pub(crate) fn clear(&mut self, edges: &[LeafEdge], front: &Front)
        requires few { length edges.now < 2 ^ 32 }
        requires members { AreMembers edges.now (bundles_in front.now) }
        requires stands { Stands edges.now (bundles_in front.now) self.old }
        ensures { (shape : Shape) → StandsOn edges.now shape (bundles_in front.now) self.old
            → StandsOn edges.now shape [] self.new }
    {
        self.rest(edges, front);
        self.at = 0;
    }

    fn go_left(&mut self, edges: &[LeafEdge], front: &Front, place: usize)
        requires few { length edges.now < 2 ^ 32 }
        requires members { AreMembers edges.now (bundles_in front.now) }
        requires stands { Stands edges.now (bundles_in front.now) self.old }
        ensures stands { StaysOn edges.now (bundles_in front.now) self.old self.new }
        ensures stays { self.old.at ≤ place → self.new.at ≡ self.old.at }
        ensures goes { place ≤ self.old.at → self.new.at ≡ place }
    {
        'strands: while self.at > place {
            self.at -= 1;
            self.tally.add(edges, front.bundle(self.at));
        }
    }

    fn go_right(&mut self, edges: &[LeafEdge], front: &Front, place: usize)
        requires few { length edges.now < 2 ^ 32 }
        requires members { AreMembers edges.now (bundles_in front.now) }
        requires stands { Stands edges.now (bundles_in front.now) self.old }
        requires there { place ≤ length (bundles_in front.now) }
        ensures stands { StaysOn edges.now (bundles_in front.now) self.old self.new }
        ensures stays { place ≤ self.old.at → self.new.at ≡ self.old.at }
        ensures goes { self.old.at ≤ place → self.new.at ≡ place }
    {
        'strands: while self.at < place {
            self.tally.take(edges, front.bundle(self.at));
            self.at += 1;
        }
    }

    /// Goes to the right until it doesn't stand between strands that meet at a height, and the flat edges of the height
    /// lie aside of the next strand.
    pub(crate) fn leave(
        &mut self,
        edges: &[LeafEdge],
        front: &Front,
        marks: &[Mark],
        at: &Level,
        flats: &[Flat],
    )
        requires within { All (λ e. IsEdgeWithin coordinate_limit e.edge) edges.now }
        requires at { IsLevelWithin coordinate_limit at.now }
        requires few { length edges.now < 2 ^ 32 }
        requires members { AreMembers edges.now (bundles_in front.now) }
        requires stands { Stands edges.now (bundles_in front.now) self.old }
        requires ready { IsReadyFor edges.now at.now front.now }
        requires named { AllZip (λ m b. IsNamed m.name b) marks.now (bundles_in front.now) }
        requires pass { AllPass edges.now at.now marks.now }
        ensures stands { StaysOn edges.now (bundles_in front.now) self.old self.new }
        ensures clear { IsClearAt edges.now at.now marks.now flats.now self.new.at }
    {
        'strands: while let Some(next) = way_out(edges, front, marks, at, flats, self.at) {
            self.go_right(edges, front, next);
        }
    }

    /// Its place among the strands above a height, where it stands between places of that height.
    pub(crate) fn shift(&mut self, changes: &[Change])
        requires told { CanShift changes.now self.old.at }
        ensures tally { self.new.tally ≡ self.old.tally }
        ensures place { (gs : List Group) → Tell 0 changes.now gs → Fit gs self.old.at
            → IsShifted gs self.old.at self.new.at }
    {
        let done = run_before(changes, self.at);
        self.at = done.above_to + (self.at - done.below_to);
    }
}

// Where a place goes to the right, if strands on both sides of it meet at a height, or a flat edge of the height doesn't
// lie aside of the next one.
fn way_out(
    edges: &[LeafEdge],
    front: &Front,
    marks: &[Mark],
    at: &Level,
    flats: &[Flat],
    place: usize,
) -> Option<usize>
    requires within { All (λ e. IsEdgeWithin coordinate_limit e.edge) edges.now }
    requires at { IsLevelWithin coordinate_limit at.now }
    requires ready { IsReadyFor edges.now at.now front.now }
    requires named { AllZip (λ m b. IsNamed m.name b) marks.now (bundles_in front.now) }
    requires there { AreThere edges.now marks.now }
    requires pass { AllPass edges.now at.now marks.now }
    ensures clear { result ≡ None → IsClearAt edges.now at.now marks.now flats.now place }
    ensures right { IfSome result (λ n. (place < n) × (n ≤ length marks.now)) }
{
    if place >= marks.len() {
        return None;
    }
    if !is_apart(edges, front, marks, at, place) {
        return Some(place + 1);
    }
    way_over(edges, marks, at, flats, place)
}

// Behind the strands over the flat edge in which a place lies, if it lies in one.
fn way_over(
    edges: &[LeafEdge],
    marks: &[Mark],
    at: &Level,
    flats: &[Flat],
    place: usize,
) -> Option<usize>
    requires within { All (λ e. IsEdgeWithin coordinate_limit e.edge) edges.now }
    requires at { IsLevelWithin coordinate_limit at.now }
    requires pass { AllPass edges.now at.now marks.now }
    requires place { place < length marks.now }
    ensures aside { result ≡ None
        → All (LiesAside at.now (spot_at edges.now at.now (mark_at marks.now place))) flats.now }
    ensures right { IfSome result (λ n. (place < n) × (n ≤ length marks.now)) }
{
    // most heights have no flat edge
    if flats.is_empty() {
        return None;
    }
    match in_way(flats, &stop_of(edges, &marks[place], at)) {
        Some(e) => Some(first_behind(edges, marks, at, &whole_spot(e.right, at), place + 1)),
        None => None,
    }
}

// The first strand from a place on that lies to the right of another place.
fn first_behind(edges: &[LeafEdge], marks: &[Mark], at: &Level, s: &Stop, place: usize) -> usize
    requires within { All (λ e. IsEdgeWithin coordinate_limit e.edge) edges.now }
    requires at { IsLevelWithin coordinate_limit at.now }
    requires pass { AllPass edges.now at.now marks.now }
    requires place { place ≤ length marks.now }
    ensures from { place ≤ result }
    ensures bound { result ≤ length marks.now }
{
    let mut from = place;
    let mut to = marks.len();
    'marks: while from < to {
        let middle = from + (to - from) / 2;
        if compare(s, &stop_of(edges, &marks[middle], at)).is_lt() {
            to = middle;
        } else {
            from = middle + 1;
        }
    }
    from
}

fn is_apart(edges: &[LeafEdge], front: &Front, marks: &[Mark], at: &Level, place: usize) -> bool
    requires within { All (λ e. IsEdgeWithin coordinate_limit e.edge) edges.now }
    requires at { IsLevelWithin coordinate_limit at.now }
    requires ready { IsReadyFor edges.now at.now front.now }
    requires named { AllZip (λ m b. IsNamed m.name b) marks.now (bundles_in front.now) }
    requires there { AreThere edges.now marks.now }
    requires place { place < length marks.now }
    ensures { result ≡ true → IsApartAt edges.now at.now marks.now place }
{
    place == 0
        || is_known_apart(front, at, place)
        || !are_together(edges, &marks[place - 1], &marks[place], at)
}

// Whether the first one's key tells that the strands on both sides of a place don't meet at a height: mostly it does.
fn is_known_apart(front: &Front, at: &Level, place: usize) -> bool
    requires at { IsLevelWithin coordinate_limit at.now }
    requires some { 0 < place }
    requires there { place < length (bundles_in front.now) }
    ensures { result ≡ true → (edges : List LeafEdge) (marks : List Mark) → IsReadyFor edges at.now front.now
        → AllZip (λ m b. IsNamed m.name b) marks (bundles_in front.now) → IsApartAt edges at.now marks place }
{
    front.is_known_left(place - 1, at)
}

// The strands of the last change to the left of a place below the height.
fn run_before(changes: &[Change], at: usize) -> Run
    requires told { CanShift changes.now at }
    ensures below { result.below_to ≤ at }
    ensures fits { result.above_to + at < 2 ^ 64 }
    ensures place { (gs : List Group) → Tell 0 changes.now gs → Fit gs at
        → IsShifted gs at (result.above_to + (at - result.below_to)) }
{
    let mut done = first();
    'changes: for change in changes {
        let run = after(&done, change);
        if run.below_to > at {
            return done;
        }
        done = run;
    }
    done
}

fn are_together(edges: &[LeafEdge], s: &Mark, t: &Mark, at: &Level) -> bool
    requires within { All (λ e. IsEdgeWithin coordinate_limit e.edge) edges.now }
    requires at { IsLevelWithin coordinate_limit at.now }
    requires first { s.now.name < length edges.now }
    requires second { t.now.name < length edges.now }
    ensures { result ≡ is_same_place at.now (edge_at edges.now s.now.name) (edge_at edges.now t.now.name) }
{
    cmp_x_at(
        &edges[s.name as usize].edge,
        &edges[t.name as usize].edge,
        at,
    )
    .is_eq()
}
