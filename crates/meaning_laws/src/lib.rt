//! Laws of what programs mean: trees of solids, no want of memory, counts that stay within their limits, one rule for
//! all arguments.
//!
//! There is no code. The contracts promise laws over the definitions of programs' meaning.
#![tactic(auto)]

pub mod laws;
