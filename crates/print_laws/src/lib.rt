//! Laws of printing programs: those of planned layers can be written, and print inside the layers' outlines.
//!
//! There is no code. The contracts promise laws over the definitions of plans, of the program's text and of the machine
//! that reads it.
#![tactic(auto)]

pub mod laws;
