//! The calls that lift the edges' height.
ghost use Rattle.std.specs.Prelude.{◌≡◌, ◌<◌, ◌^◌, List, length, IfOk, OnOk, All};
ghost use Rattle.std.specs.List.Sorted.{IsPermutation};
ghost use Rattle.scad_geom.specs.declared.level.Level.{Level};
ghost use Rattle.scad_geom.specs.declared.level.LeafEdge.{LeafEdge};
ghost use Rattle.scad_geom.specs.Limits.{coordinate_limit};
ghost use Rattle.scad_geom.specs.Within.{IsEdgeWithin};
ghost use Rattle.scad_geom.specs.Level.{IsLevelWithin};
ghost use Rattle.scad_geom.specs.Heights.{AreNeighbours};
ghost use Rattle.slice_bundles.specs.Bundles.{AreBundles};
ghost use Rattle.slice_bundles.specs.Touching.{touching};
ghost use Rattle.slice_slab.specs.Active.{live_in, bundles_in, IsReadyFor, StandsAt};

use crate::collect::touching_among;
use crate::lower_ends::{begin, starts};
use crate::rising_edges::Active;
use crate::slab_bundles::slab_among;
use scad_geom::{LeafEdge, Level};
use slice_bundles::Bundle;
use std::alloc::{AllocError, Global};
use std::mem;

impl Active {
    /// The edges, before the first of them begins: it can be lifted to any height.
    pub fn new(alloc: Global, edges: &[LeafEdge]) -> Result<Active, AllocError>
        requires within { All (λ e. IsEdgeWithin coordinate_limit e.edge) edges.now }
        requires few { length edges.now < 2 ^ 32 }
        ensures { IfOk result (λ a. (at : Level) → IsReadyFor edges.now at a) }
    {
        Ok(Active {
            alloc,
            starts: starts(alloc, edges)?,
            begun: 0,
            live: Vec::new(alloc),
            bundles: Vec::new(alloc),
        })
    }

    /// Lifts it to a height that isn't below the one where it stands.
    pub fn lift(&mut self, edges: &[LeafEdge], at: &Level) -> Result<(), AllocError>
        requires within { All (λ e. IsEdgeWithin coordinate_limit e.edge) edges.now }
        requires few { length edges.now < 2 ^ 32 }
        requires at { IsLevelWithin coordinate_limit at.now }
        requires ready { IsReadyFor edges.now at.now self.old }
        ensures live { OnOk result (IsPermutation (touching 0 edges.now at.now) (live_in self.new)) }
        ensures stands { OnOk result (StandsAt edges.now at.now self.new) }
    {
        self.begun = begin(&mut self.live, &self.starts, self.begun, at)?;
        let live = touching_among(self.alloc, edges, &self.live, at)?;
        self.live = live;
        Ok(())
    }

    /// Lifts it to the lower of two neighbouring heights, and makes the bundles between them.
    pub fn advance(
        &mut self,
        edges: &[LeafEdge],
        lower: &Level,
        upper: &Level,
    ) -> Result<(), AllocError>
        requires within { All (λ e. IsEdgeWithin coordinate_limit e.edge) edges.now }
        requires few { length edges.now < 2 ^ 32 }
        requires lower { IsLevelWithin coordinate_limit lower.now }
        requires upper { IsLevelWithin coordinate_limit upper.now }
        requires neighbours { AreNeighbours edges.now lower.now upper.now }
        requires ready { IsReadyFor edges.now lower.now self.old }
        ensures live { OnOk result (IsPermutation (touching 0 edges.now lower.now) (live_in self.new)) }
        ensures bundles { OnOk result (AreBundles edges.now lower.now upper.now (bundles_in self.new)) }
        ensures stands { OnOk result (StandsAt edges.now lower.now self.new) }
    {
        self.lift(edges, lower)?;
        let bundles = slab_among(self.alloc, edges, &mut self.live, lower, upper)?;
        self.bundles = bundles;
        Ok(())
    }

    /// The numbers of the edges that meet the height where it stands, flat ones among them: after `advance` those in
    /// the bundles from left to right, then the others, so that the next sort finds them almost in order.
    pub fn touching(&self) -> &[u32]
        ensures { result.now ≡ live_in self.now }
    {
        &self.live
    }

    /// The bundles between the two heights of the last `advance`.
    pub fn bundles(&self) -> &[Bundle]
        ensures { result.now ≡ bundles_in self.now }
    {
        &self.bundles
    }

    /// Takes the bundles out.
    pub fn take_bundles(&mut self) -> Vec<Bundle>
        ensures bundles { result.items ≡ bundles_in self.old }
        ensures ready { (edges : List LeafEdge) (at : Level) → IsReadyFor edges at self.old → IsReadyFor edges at self.new }
    {
        mem::replace(&mut self.bundles, Vec::new(self.alloc))
    }
}
