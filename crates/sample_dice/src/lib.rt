//! Random numbers, points and outlines by a seed, for the crates of samples: the same for a seed on each machine, and in the
//! independent programs that the samples are compared with.
#![tactic(auto)]

mod dice;
mod outlines;

pub use dice::Dice;
pub use outlines::{roll_outline, roll_outlines};
