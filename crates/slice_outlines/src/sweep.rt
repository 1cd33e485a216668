//! A sweep over the levels of an edge list.
ghost use Rattle.std.specs.Prelude.{◌≡◌, ◌<◌, ◌≤◌, ◌-◌, ◌^◌, List, [], ◌∷◌, length, take, drop, IfOk, OnOk, All};
ghost use Rattle.std.specs.List.{AllZip};
ghost use Rattle.scad_geom.specs.declared.level.Level.{Level};
ghost use Rattle.scad_geom.specs.declared.shape.Shape.{Shape};
ghost use Rattle.scad_geom.specs.Limits.{coordinate_limit};
ghost use Rattle.scad_geom.specs.Within.{IsEdgeWithin};
ghost use Rattle.scad_geom.specs.Level.{IsLevelWithin};
ghost use Rattle.scad_geom.specs.Leaves.{AreLeavesBalanced};
ghost use Rattle.scad_geom.specs.Heights.{AreNeighbours};
ghost use Rattle.slice_events.specs.Levels.{AreLevels};
ghost use Rattle.slice_sweep.specs.Front.{bundles_in, IsReadyFor};
ghost use Rattle.slice_border.specs.Beside.{AreMembers};
ghost use Rattle.sweep_laws.specs.Sweeps.{AreMergedEdges};
ghost use Rattle.slice_outlines.specs.Sweep.{HasSwept, CanClimb, CanEnd};
ghost use Rattle.slice_outlines.specs.Marks.{IsNamed};
ghost use Rattle.slice_outlines.specs.Cursors.{StandForSome, StayOn, AreClearAt};
ghost use Rattle.slice_outlines.specs.Stops.{AllPass};
ghost use Rattle.slice_outlines.specs.Heights.{Onwards, IsOf};
ghost use Rattle.slice_outlines.specs.Ahead.{HasComeTo};
ghost use Rattle.slice_outlines.specs.Level.{IsAtLevel, IsValuedAt, AreSpotsOf};
ghost use Rattle.slice_pieces.specs.declared.piece.Spot.{Spot};

use crate::above::marks_above;
use crate::cursors::Cursors;
use crate::flat::Flat;
use crate::flats::{flats, flats_to, joined_from};
use crate::groups::{Passed, pass_groups, skip_groups};
use crate::height::{Height, Open};
use crate::mark::Mark;
use crate::run::{Run, first};
use crate::stretch::{pass_places, pass_stretch, run_between};
use scad_geom::{Edge, LeafEdge, Level, Shape};
use slice_sweep::{Change, Front};
use std::alloc::{AllocError, Global};
use std::mem;

/// The front, what is kept beside it, and the flat edges that are still to come.
#[derive(Drop)]
pub(crate) struct Sweep {
    alloc: Global,
    front: Front,
    kept: Open,
    flats: Vec<Flat>,
    passed: usize,
}

impl Sweep {
    /// Below all levels.
    pub(crate) fn new(alloc: Global, edges: &[LeafEdge], shape: &Shape) -> Result<Sweep, AllocError>
        requires within { All (λ e. IsEdgeWithin coordinate_limit e.edge) edges.now }
        requires few { length edges.now < 2 ^ 32 }
        ensures { IfOk result (λ s. (levels : List Level) → AreLevels edges.now levels
            → HasSwept edges.now shape.now levels levels s) }
    {
        let front = Front::new(alloc, edges)?;
        let cursors = Cursors::new(alloc, edges, shape)?;
        let flats = flats(alloc, edges)?;
        Ok(Sweep {
            alloc,
            front,
            kept: nothing(alloc, cursors),
            flats,
            passed: 0,
        })
    }

    /// As many cursors as the front is wide enough for: one more at a time, or fewer by as many as are too many.
    pub(crate) fn fit_cursors(
        &mut self,
        edges: &[LeafEdge],
        shape: &Shape,
    ) -> Result<(), AllocError>
        ensures { OnOk result ((levels left : List Level)
            → HasSwept edges.now shape.now levels left self.old
            → HasSwept edges.now shape.now levels left self.new) }
    {
        self.kept.cursors.fit(self.alloc, edges, shape, &self.front)
    }

    /// Lifts it over a level to the next.
    pub(crate) fn advance(
        &mut self,
        edges: &[LeafEdge],
        at: &Level,
        upper: &Level,
    ) -> Result<(), AllocError>
        requires within { All (λ e. IsEdgeWithin coordinate_limit e.edge) edges.now }
        requires few { length edges.now < 2 ^ 32 }
        requires balanced { AreLeavesBalanced edges.now }
        requires at { IsLevelWithin coordinate_limit at.now }
        requires upper { IsLevelWithin coordinate_limit upper.now }
        requires neighbours { AreNeighbours edges.now at.now upper.now }
        requires swept { CanClimb edges.now at.now upper.now self.old }
        ensures { (w : CanClimb edges.now at.now upper.now self.old)
            → OnOk result (HasSwept edges.now w.shape w.levels (upper.now ∷ w.later) self.new) }
    {
        let flat_to = flats_to(&self.flats, self.passed, at);
        self.clear_cursors(edges, at, flat_to);
        let changes = self.front.advance(edges, at, upper)?;
        self.kept.cursors.shift(&changes);
        let above = marks_above(self.alloc, &self.kept.marks, &self.front, &changes)?;
        let below = mem::replace(&mut self.kept.marks, above);
        let height = Height {
            edges,
            at,
            front: &self.front,
            below: &below,
        };
        let flats = &self.flats[self.passed..flat_to];
        pass_level(self.alloc, &height, &mut self.kept, &changes, flats)?;
        self.passed = flat_to;
        Ok(())
    }

    // Moves the cursors to where the level leaves them.
    fn clear_cursors(&mut self, edges: &[LeafEdge], at: &Level, flat_to: usize)
        requires within { All (λ e. IsEdgeWithin coordinate_limit e.edge) edges.now }
        requires few { length edges.now < 2 ^ 32 }
        requires at { IsLevelWithin coordinate_limit at.now }
        requires members { AreMembers edges.now (bundles_in self.old.front) }
        requires stands { StandForSome edges.now (bundles_in self.old.front) self.old.kept.cursors }
        requires ready { IsReadyFor edges.now at.now self.old.front }
        requires named { AllZip (λ m b. IsNamed m.name b) self.old.kept.marks.items (bundles_in self.old.front) }
        requires pass { AllPass edges.now at.now self.old.kept.marks.items }
        requires from { self.old.passed ≤ flat_to }
        requires to { flat_to ≤ length self.old.flats.items }
        ensures stands { StayOn edges.now (bundles_in self.old.front) self.old.kept.cursors self.new.kept.cursors }
        ensures clear { AreClearAt edges.now at.now self.old.kept.marks.items
            (take (flat_to - self.old.passed) (drop self.old.passed self.old.flats.items)) self.new.kept.cursors }
        ensures front { self.new.front ≡ self.old.front }
        ensures marks { self.new.kept.marks ≡ self.old.kept.marks }
        ensures given { self.new.kept.given ≡ self.old.kept.given }
        ensures flats { self.new.flats ≡ self.old.flats }
        ensures passed { self.new.passed ≡ self.old.passed }
    {
        let flats = &self.flats[self.passed..flat_to];
        self.kept
            .cursors
            .leave(edges, &self.front, &self.kept.marks, at, flats);
    }

    /// Ends it with the last level, and gives the edges of all pieces.
    pub(crate) fn end(self, edges: &[LeafEdge], top: &Level) -> Result<Vec<Edge>, AllocError>
        requires within { All (λ e. IsEdgeWithin coordinate_limit e.edge) edges.now }
        requires few { length edges.now < 2 ^ 32 }
        requires balanced { AreLeavesBalanced edges.now }
        requires top { IsLevelWithin coordinate_limit top.now }
        requires swept { CanEnd edges.now top.now self }
        ensures { (w : CanEnd edges.now top.now self) → IfOk result (λ v. AreMergedEdges edges.now w.shape v.items) }
    {
        let mut kept = self.kept;
        kept.cursors.clear(edges, &self.front);
        let below = mem::replace(&mut kept.marks, Vec::new(self.alloc));
        let front = Front::new(self.alloc, &[])?;
        let height = Height {
            edges,
            at: top,
            front: &front,
            below: &below,
        };
        let run = Run {
            below: 0,
            below_to: below.len(),
            above: 0,
            above_to: 0,
        };
        let flats = &self.flats[self.passed..];
        pass_places(self.alloc, &height, &mut kept, &run, flats)?;
        Ok(kept.given)
    }
}

// Beside a front without strands.
fn nothing(alloc: Global, cursors: Cursors) -> Open
    ensures marks { result.marks.items ≡ [] }
    ensures cursors { result.cursors ≡ cursors }
    ensures given { result.given.items ≡ [] }
{
    Open {
        marks: Vec::new(alloc),
        cursors,
        given: Vec::new(alloc),
    }
}

// Passes the places of a level: groups and stretches of flat edges, from left to right.
fn pass_level(
    alloc: Global,
    height: &Height<'_>,
    kept: &mut Open,
    changes: &[Change],
    flats: &[Flat],
) -> Result<(), AllocError>
    requires level { IsAtLevel height.now kept.old.marks.items changes.now flats.now kept.old.cursors }
    ensures { (w : IsAtLevel height.now kept.old.marks.items changes.now flats.now kept.old.cursors) (on : Onwards)
        → IsOf height.now on → IsValuedAt on w.groups → HasComeTo on [] 0 0 kept.old
        → OnOk result ((spots : List Spot) × AreSpotsOf height.now flats.now spots
        × HasComeTo on spots (length height.now.below.now) (length kept.old.marks.items) kept.new) }
{
    let mut passed = Passed {
        count: 0,
        last: first(),
    };
    let mut from = 0;
    'stretches: while from < flats.len() {
        let joined = joined_from(flats, from);
        let run = run_between(height, &kept.marks, flats[from].left, joined.right);
        passed = pass_groups(height, kept, changes, &passed, &run)?;
        pass_stretch(alloc, height, kept, &run, &flats[from..joined.to])?;
        passed = skip_groups(changes, &passed, &run);
        from = joined.to;
    }
    let end = end_of(height, &kept.marks);
    pass_groups(height, kept, changes, &passed, &end)?;
    Ok(())
}

// The right end of a height.
fn end_of(height: &Height<'_>, above: &[Mark]) -> Run
    ensures below { result.below ≡ length height.now.below.now }
    ensures below_to { result.below_to ≡ length height.now.below.now }
    ensures above { result.above ≡ length above.now }
    ensures above_to { result.above_to ≡ length above.now }
{
    Run {
        below: height.below.len(),
        below_to: height.below.len(),
        above: above.len(),
        above_to: above.len(),
    }
}
