//! Reads texts in the ASCII form of the Common Layer Interface 2.0 back into layers.
//!
//! The contract promises that exactly the layers that a text says are read, and which line has the first fault.
#![tactic(auto)]

mod fault;
mod geometry;
mod hatch_line;
mod head;
pub mod laws;
mod layers;
mod line;
mod lines;
mod number;
mod outline;
mod points;
mod reader;
mod words;

pub use fault::CliFault;
pub use layers::{Cli, CliLayer, CliLayers, Hatches, Loops};
pub use reader::read;
