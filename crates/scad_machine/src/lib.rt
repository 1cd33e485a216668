//! What an evaluation holds: frames of names, the steps and the depth that are left, and the lines of `echo`.
//! Each call of a `Machine` is proved to be its part of the meaning of expressions: which steps are taken and where their
//! limit is passed, what a name means, which parameter takes which argument, and which frames a call opens.
#![tactic(auto)]

mod counts;
mod echo_lines;
mod fault;
mod functions;
mod invocation;
pub mod laws;
mod lookup;
mod machine;
mod names;
mod opening;
mod parameter_names;
mod parameter_values;
mod parameters;
mod refusals;

pub use fault::EvalFault;
pub use functions::{Defined, DefinedAt};
pub use invocation::{Callee, Invocation};
pub use lookup::ItemAt;
pub use machine::{DEPTH_LIMIT, Machine, NESTING_LIMIT, STEP_LIMIT};
pub use names::{are_named, is_dollar};
pub use opening::{CallFrames, last_of};
pub use parameters::{CHILD_LIMIT, is_statement};
pub use refusals::{fault_at, named_fault, over};
