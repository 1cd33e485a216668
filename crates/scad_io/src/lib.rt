//! The outside of the slicer as one value: an input, three outputs, and a gate for the workers.
//! A desk's contract says which bytes each call moves, and that a fault is counted where one fails.
#![tactic(auto)]

mod claims;
mod desk;
mod gate;
mod handle;
mod null;
mod real;
mod whole_piece;
mod whole_text;

pub use desk::{Desk, Failed, Out};
pub use gate::{Gate, Open};
pub use null::NullDesk;
pub use real::RealDesk;
pub use whole_piece::write_all;
pub use whole_text::{ReadEnd, read_all};
