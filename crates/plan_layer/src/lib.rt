//! The plan of a layer: the paths along which it is printed, walls first and then infill.
//!
//! The contract promises exactly the paths of the definition, that each point of each move keeps the clearance of half
//! the width of a line from the layer's outlines and lies inside them, and each refusal with its cause.
#![tactic(auto, using(scad_geom::proofs::Casts::casts))]

mod fault;
mod infill_paths;
pub mod laws;
mod layer_plan;
mod lines;
mod wall_paths;

pub use fault::PlanFault;
pub use layer_plan::{LayerPlan, MOVE_LIMIT, plan};
