//! The work on one layer.
ghost use Rattle.std.specs.Prelude.{◌<◌, IfOk};
ghost use Rattle.slice_work.specs.Part.{Part, Ends, EndsWithin, layer_limit};

use crate::layer::LayerEnd;
use std::alloc::{AllocError, Global};

/// The work on any one layer of a part. What it ends with depends on the layer alone.
pub trait LayerWork: Sync {
    /// The part is drawn so.
    ghost draws: { Self → Part → Type 0 };

    /// Works a layer. Its outlines lie within the limit of coordinates.
    fn draw(&self, alloc: Global, layer: u32) -> Result<LayerEnd, AllocError>
        requires within { layer < layer_limit }
        ensures end { IfOk result (λ end. (part : Part) → draws self.now part → Ends (part layer) end) }
        ensures within { IfOk result EndsWithin };
}
