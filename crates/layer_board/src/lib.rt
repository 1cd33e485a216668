//! A board from which workers draw the layers of a part, each layer once, without waiting.
//!
//! The contracts promise that each call is one event on two shared numbers, that together the events draw every layer
//! once, and that the board ends with the least failed layer, whatever the order of the events.
#![tactic(auto)]

mod board;
pub mod laws;
mod rule;
mod share;
mod view;

pub use board::{Board, Claim, Outcome, Pass};
pub use share::{Share, together};
pub use view::View;
