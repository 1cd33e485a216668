//! Writes paths as a printing program in commands of the RepRap G-code reference, and reads such programs by the
//! machine that they drive.
//!
//! The contracts promise the exact text of each part, that the output is as it was where memory ran out, and
//! exactly the move or the refusal of each line that is read.
#![tactic(auto)]

mod amount;
mod command;
mod fault;
pub mod laws;
mod layer;
mod letters;
mod machine;
mod number;
mod numeral;
mod path;
mod rates;
mod scan;
mod statement;
mod word;
mod writer;

pub use fault::GFault;
pub use layer::are_few;
pub use machine::{Machine, Move};
pub use numeral::push_hundred_thousandths;
pub use rates::Rates;
pub use writer::{write_end, write_head, write_layer, write_supports};
