//! The calls that lift the height.
ghost use Rattle.std.specs.Prelude.{◌≡◌, ◌<◌, ◌^◌, length, slice_index_or, [], IfOk, OnOk, All};
ghost use Rattle.scad_geom.specs.declared.level.Level.{Level};
ghost use Rattle.scad_geom.specs.Limits.{coordinate_limit};
ghost use Rattle.scad_geom.specs.Within.{IsEdgeWithin};
ghost use Rattle.scad_geom.specs.Level.{IsLevelWithin};
ghost use Rattle.scad_geom.specs.Heights.{AreNeighbours};
ghost use Rattle.slice_bundles.specs.Bundles.{AreBundles};
ghost use Rattle.slice_sweep.specs.Changes.{AreChanges};
ghost use Rattle.slice_sweep.specs.Front.{bundles_in, IsReadyFor, StartFrom, IsBegunTo};

use crate::change::Change;
use crate::front::Front;
use crate::key::key_of;
use crate::lower_ends::{begin, lower_ends};
use crate::lows::find_lows;
use crate::mend::mend;
use crate::room::Room;
use crate::start::start_all;
use crate::step::Step;
use crate::wake::wake_all;
use scad_geom::{LeafEdge, Level};
use std::alloc::{AllocError, Global};

impl Front {
    /// The edges, before the first of them starts: it can be lifted to any height.
    pub fn new(alloc: Global, edges: &[LeafEdge]) -> Result<Front, AllocError>
        requires within { All (λ e. IsEdgeWithin coordinate_limit e.edge) edges.now }
        requires few { length edges.now < 2 ^ 32 }
        ensures none { IfOk result (λ f. bundles_in f ≡ []) }
        ensures ready { IfOk result (λ f. (at : Level) → IsReadyFor edges.now at f) }
        ensures begun { IfOk result (λ f. (at : Level) → StartFrom at edges.now → IsBegunTo edges.now at f) }
    {
        Ok(Front {
            alloc,
            ends: lower_ends(alloc, edges)?,
            begun: 0,
            strands: Vec::new(alloc),
            lows: Vec::new(alloc),
            room: Room::new(alloc),
        })
    }

    /// Lifts it from one height to the next, with the bundles between them, and tells what changes.
    pub fn advance(
        &mut self,
        edges: &[LeafEdge],
        lower: &Level,
        upper: &Level,
    ) -> Result<Vec<Change>, AllocError>
        requires within { All (λ e. IsEdgeWithin coordinate_limit e.edge) edges.now }
        requires few { length edges.now < 2 ^ 32 }
        requires lower { IsLevelWithin coordinate_limit lower.now }
        requires upper { IsLevelWithin coordinate_limit upper.now }
        requires neighbours { AreNeighbours edges.now lower.now upper.now }
        requires ready { IsReadyFor edges.now lower.now self.old }
        ensures bundles { OnOk result (AreBundles edges.now lower.now upper.now (bundles_in self.new)) }
        ensures ready { OnOk result (IsReadyFor edges.now upper.now self.new) }
        ensures begun { OnOk result (IsBegunTo edges.now upper.now self.new) }
        ensures changes { IfOk result (λ v. IsBegunTo edges.now lower.now self.old
            → AreChanges edges.now lower.now (bundles_in self.old) (bundles_in self.new) v.items) }
    {
        let numbers = &mut self.room.numbers;
        numbers.clear();
        self.begun = begin(numbers, &self.ends, self.begun, lower)?;
        start_all(edges, &mut self.strands, &mut self.lows, numbers, lower)?;
        let step = Step {
            alloc: self.alloc,
            edges,
            lower,
            upper,
            key: key_of(lower),
        };
        let changes = mend(&step, &mut self.strands, &mut self.lows, &mut self.room)?;
        wake_all(&step, &mut self.strands, &changes);
        find_lows(&self.strands, &mut self.lows)?;
        Ok(changes)
    }

    /// How many bundles there are.
    pub fn count(&self) -> usize
        ensures { result ≡ length (bundles_in self.now) }
    {
        self.strands.len()
    }

    /// The numbers of the edges of a bundle.
    pub fn bundle(&self, i: usize) -> &[u32]
        requires { i < length (bundles_in self.now) }
        ensures { result.now ≡ slice_index_or (bundles_in self.now) i [] }
    {
        self.strands[i].bundle.as_slice()
    }
}
