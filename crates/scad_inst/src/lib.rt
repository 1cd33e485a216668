//! Statements of a program: `specs/Meaning.antt` of scad_members says what each gives, one rule for each kind.
//! `model` gives what a whole program makes.
#![tactic(auto)]

mod answers;
mod built_in;
mod call;
mod call_frames;
mod lookup;
mod modules;
mod programs;
mod run;
mod walk;

pub use answers::{Model, ModelEnd};
pub use programs::model;
