//! Laws of supports: what stands below higher layers, and the support runs of a layer, follow from the layers'
//! outlines.
//!
//! There is no code. The contracts promise laws over the definitions of plan_support and of this crate.
#![tactic(auto)]

pub mod laws;
