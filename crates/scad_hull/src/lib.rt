//! Convex hulls of points, exact: rings round points of the plane, solids round points of space.
//!
//! The contracts promise the corners of the hull as the definition has them, and each refusal exactly.
#![tactic(auto)]

mod axis;
mod block;
mod chain;
mod cloud;
mod distinct;
mod faces;
mod fault;
mod first;
mod flat;
pub mod laws;
mod node;
mod outline;
mod plane;
mod solid;
mod spot;
mod turning;
mod wrapping;

pub use fault::HullFault;
pub use flat::ring_hull;
pub use outline::Ring2;
pub use solid::hull;
