//! A whole run: reads a part, tells what it means, or writes its layers' outlines and the program that prints it; or judges
//! a printing program by outlines.
//! `run` has the promise, over every desk; the program hands it the real files.
#![tactic(auto)]

mod check;
mod evaluation;
mod finish;
mod judging;
pub mod laws;
mod meaning;
mod order;
mod sample;
mod settings;
mod whole_run;
mod work;

pub use whole_run::run;
