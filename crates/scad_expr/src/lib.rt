//! Expressions of a program to their values: `specs/Meaning.antt` of scad_stack says what each gives, one rule for each kind
//! of node.
//! `eval`, `values` and `bind` are proved to be that meaning: the value, or the first fault or budget with its place and the
//! lines of `echo` before it; only want of memory isn't promised away.
#![tactic(auto)]

mod answer;
mod call;
pub mod laws;
mod let_bindings;
mod nodes;
mod run;
mod walk;

pub use call::{bind, values};
pub use let_bindings::let_names;
pub use scad_machine::{Callee, DEPTH_LIMIT, EvalFault, Machine, STEP_LIMIT};
pub use scad_operations::{
    Remainder, asserted, judge_named, judge_variables, next_number, next_value, run_over,
};
pub use walk::eval;
