//! Cursors, each with a stretch of the front of its own, so that none walks far.
ghost use Rattle.std.specs.Prelude.{◌≡◌, ◌<◌, ◌≤◌, ◌^◌, [], List, length, drop, IfOk, OnOk, All};
ghost use Rattle.std.specs.List.{AllZip};
ghost use Rattle.scad_geom.specs.declared.shape.Shape.{Shape};
ghost use Rattle.scad_geom.specs.Limits.{coordinate_limit};
ghost use Rattle.scad_geom.specs.Within.{IsEdgeWithin};
ghost use Rattle.scad_geom.specs.Level.{IsLevelWithin};
ghost use Rattle.slice_sweep.specs.Front.{bundles_in, IsReadyFor};
ghost use Rattle.slice_sweep.specs.Changes.{Group, Tell};
ghost use Rattle.slice_border.specs.Beside.{AreMembers, left_value};
ghost use Rattle.slice_outlines.specs.Marks.{IsNamed};
ghost use Rattle.slice_outlines.specs.Stops.{AllPass};
ghost use Rattle.slice_outlines.specs.Cursor.{Fit};
ghost use Rattle.slice_outlines.specs.Cursors.{StandOn, StandForSome, StayOn, AreClearAt, CanBeShifted, AreAbove};

use crate::cursor::Cursor;
use crate::flat::Flat;
use crate::mark::Mark;
use scad_geom::{LeafEdge, Level, Shape};
use slice_sweep::{Change, Front};
use std::alloc::{AllocError, Global};

/// How many there are on a narrow front, and how many more at most on a wide one.
const LEAST: usize = 4;

const MORE: usize = 60;

/// A wide front has one more for each so many strands at least, and for each so many at most. Between the two they stay,
/// since a new one costs as much as there are leaves.
const WIDE: usize = 64;

const NARROW: usize = 32;

/// Cursors on one front.
#[derive(Drop)]
pub(crate) struct Cursors {
    all: Vec<Cursor>,
}

impl Cursors {
    /// On a front without strands.
    pub(crate) fn new(
        alloc: Global,
        edges: &[LeafEdge],
        shape: &Shape,
    ) -> Result<Cursors, AllocError>
        ensures { IfOk result (StandOn edges.now shape.now []) }
    {
        let mut all = Vec::new(alloc);
        'cursors: while all.len() < LEAST {
            let cursor = Cursor::new(alloc, edges, shape, 0)?;
            all.push(cursor)?;
        }
        Ok(Cursors { all })
    }

    /// One more where the front is too wide for them, and fewer where it's too narrow.
    pub(crate) fn fit(
        &mut self,
        alloc: Global,
        edges: &[LeafEdge],
        shape: &Shape,
        front: &Front,
    ) -> Result<(), AllocError>
        ensures { OnOk result (StandOn edges.now shape.now (bundles_in front.now) self.old
            → StandOn edges.now shape.now (bundles_in front.now) self.new) }
    {
        let strands = front.count();
        if self.all.len() < count_for(strands, WIDE) {
            let cursor = Cursor::new(alloc, edges, shape, strands)?;
            self.all.push(cursor)?;
            return Ok(());
        }
        self.all.truncate(count_for(strands, NARROW));
        Ok(())
    }

    /// The value to the left of the strand at a place, to which the cursor goes in whose stretch a run of places begins.
    pub(crate) fn value_at(
        &mut self,
        edges: &[LeafEdge],
        front: &Front,
        from: usize,
        place: usize,
    ) -> bool
        requires few { length edges.now < 2 ^ 32 }
        requires members { AreMembers edges.now (bundles_in front.now) }
        requires stands { StandForSome edges.now (bundles_in front.now) self.old }
        requires there { place ≤ length (bundles_in front.now) }
        ensures value { (shape : Shape) → StandOn edges.now shape (bundles_in front.now) self.old
            → result ≡ left_value edges.now shape (drop place (bundles_in front.now)) }
        ensures stands { StayOn edges.now (bundles_in front.now) self.old self.new }
    {
        let i = cursor_of(from, front.count(), self.all.len());
        self.all[i].value_at(edges, front, place)
    }

    /// All leave all strands, for a front without any.
    pub(crate) fn clear(&mut self, edges: &[LeafEdge], front: &Front)
        requires few { length edges.now < 2 ^ 32 }
        requires members { AreMembers edges.now (bundles_in front.now) }
        requires stands { StandForSome edges.now (bundles_in front.now) self.old }
        ensures { (shape : Shape) → StandOn edges.now shape (bundles_in front.now) self.old
            → StandOn edges.now shape [] self.new }
    {
        'cursors: for i in 0..self.all.len() {
            self.all[i].clear(edges, front);
        }
    }

    /// All go to the right until each is clear of a height and its flat edges.
    pub(crate) fn leave(
        &mut self,
        edges: &[LeafEdge],
        front: &Front,
        marks: &[Mark],
        at: &Level,
        flats: &[Flat],
    )
        requires within { All (λ e. IsEdgeWithin coordinate_limit e.edge) edges.now }
        requires at { IsLevelWithin coordinate_limit at.now }
        requires few { length edges.now < 2 ^ 32 }
        requires members { AreMembers edges.now (bundles_in front.now) }
        requires stands { StandForSome edges.now (bundles_in front.now) self.old }
        requires ready { IsReadyFor edges.now at.now front.now }
        requires named { AllZip (λ m b. IsNamed m.name b) marks.now (bundles_in front.now) }
        requires pass { AllPass edges.now at.now marks.now }
        ensures stands { StayOn edges.now (bundles_in front.now) self.old self.new }
        ensures clear { AreClearAt edges.now at.now marks.now flats.now self.new }
    {
        'cursors: for i in 0..self.all.len() {
            self.all[i].leave(edges, front, marks, at, flats);
        }
    }

    /// Their places among the strands above a height, where they stand between places of that height.
    pub(crate) fn shift(&mut self, changes: &[Change])
        requires told { CanBeShifted changes.now self.old }
        ensures { (gs : List Group) → Tell 0 changes.now gs → All (λ c. Fit gs c.at) self.old.all.items
            → AreAbove gs self.old self.new }
    {
        'cursors: for i in 0..self.all.len() {
            self.all[i].shift(changes);
        }
    }
}

// How many stand on a front of so many strands, of which so many fall to each.
fn count_for(strands: usize, each: usize) -> usize
    requires { 0 < each }
    ensures { 0 < result }
{
    LEAST + (strands / each).min(MORE)
}

// The number of the cursor whose stretch a place of a front lies in.
fn cursor_of(place: usize, strands: usize, cursors: usize) -> usize
    requires { 0 < cursors }
    ensures { result < cursors }
{
    let each = (strands / cursors).max(1);
    (place / each).min(cursors - 1)
}
