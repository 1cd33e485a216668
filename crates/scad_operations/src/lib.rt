//! Values at a place of a program: what operators, functions of the language, ranges, members and vectors give there, what is
//! asked of arguments, and what `for` and `each` run over.
//! Each is proved to be its definition, `specs/Values.antt` or `specs/Runs.antt`: the value, or the fault at that place; only
//! want of memory isn't promised away.
#![tactic(auto)]

mod construction;
mod loans;
mod operation;
mod operations;
mod part;
mod pieces;
mod remainder;
mod requirements;
mod sequence;

pub use construction::vector;
pub use loans::{builtin_on, lone_name, member_in};
pub use operation::{Bounds, Operation, operate};
pub use operations::{binary_at, builtin_at, in_memory};
pub use part::Part;
pub use pieces::{add_parts, append};
pub use remainder::{Remainder, next_value, run_over};
pub use requirements::{asserted, judge_named, judge_variables};
pub use sequence::next_number;
