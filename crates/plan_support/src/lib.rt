//! Support lines under what overhangs.
//!
//! The contracts promise exactly the maximal stretches of whole points of the support lines, by definitions that ask
//! each point, and each layer above it.
#![tactic(auto, using(scad_geom::proofs::Casts::casts))]

mod cover;
mod cover_fault;
mod cover_rows;
mod free;
mod heights;
mod line;
mod line_work;
mod lines;
mod lists;
mod near;
mod reach;
mod rows;
mod support;
mod support_lines;
mod union;
mod worker;
mod workers;

pub use cover::covers;
pub use cover_fault::CoverFault;
pub use cover_rows::Covers;
pub use rows::Rows;
pub use support::supports;
pub use support_lines::spans;
