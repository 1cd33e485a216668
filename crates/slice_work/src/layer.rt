//! What the work on a layer ends with.

use plan_layer::LayerPlan;
use scad_fault::Budget;
use scad_geom::Loop;

/// What the work on a layer ends with.
#[derive(Drop)]
pub enum LayerEnd {
    /// Its outlines and its plan; a plan that isn't wanted has no paths.
    Made(Vec<Loop>, LayerPlan),
    /// The first budget that it passes.
    Over(Budget),
}

/// A layer, and what the work on it ended with.
#[derive(Drop)]
pub struct Drawn {
    pub layer: u32,
    pub end: LayerEnd,
}
