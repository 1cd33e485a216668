//! The words of the command line and the settings of a print.
//!
//! The contracts promise exactly the job that the words ask for and the settings that a TOML text gives, or each refusal
//! with its cause. What command words are of a form is what `clap` promises, what TOML is, is what `toml` promises.
#![tactic(auto)]

mod command_set;
mod job;
pub mod laws;
mod number;
mod operands;
mod rows;
mod settings;
mod words;

pub use job::{Command, Job, WordFault};
pub use settings::{SetError, Settings, read_settings};
pub use words::read_words;
