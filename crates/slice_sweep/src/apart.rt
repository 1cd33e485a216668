//! Neighbours on the front that are known not to meet at a height.
ghost use Rattle.std.specs.Prelude.{◌≡◌, ◌<◌, ◌+◌, [], true, List, length, slice_index_or};
ghost use Rattle.scad_geom.specs.declared.level.LeafEdge.{LeafEdge};
ghost use Rattle.scad_geom.specs.Limits.{coordinate_limit};
ghost use Rattle.scad_geom.specs.Level.{IsLevelWithin};
ghost use Rattle.slice_bundles.specs.KeptOrder.{IsLeftAt};
ghost use Rattle.slice_sweep.specs.Keys.{IsBelowKey};
ghost use Rattle.slice_sweep.specs.Strands.{head, strand_at};
ghost use Rattle.slice_sweep.specs.Front.{bundles_in, IsReadyFor};

use crate::front::Front;
use crate::key::is_below;
use crate::strand::Strand;
use scad_geom::Level;

impl Front {
    /// Whether a bundle is known to lie to the left of the next at a height to which the front can be lifted. It costs a
    /// comparison; where the answer is no they may lie apart all the same.
    pub fn is_known_left(&self, i: usize, at: &Level) -> bool
        requires at { IsLevelWithin coordinate_limit at.now }
        requires there { i + 1 < length (bundles_in self.now) }
        ensures { result ≡ true → (edges : List LeafEdge) → IsReadyFor edges at.now self.now
            → IsLeftAt at.now (head edges (slice_index_or (bundles_in self.now) i []))
            (head edges (slice_index_or (bundles_in self.now) (i + 1) [])) }
    {
        sleeps_at(&self.strands, i, at)
    }
}

// Whether a height lies below the key of the strand at a place.
fn sleeps_at(strands: &[Strand], i: usize, at: &Level) -> bool
    requires at { IsLevelWithin coordinate_limit at.now }
    requires there { i < length strands.now }
    ensures { result ≡ true → IsBelowKey at.now (strand_at strands.now i).wake }
{
    is_below(at, strands[i].wake)
}
