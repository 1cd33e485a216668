//! Laws of verdicts on printing programs: on each there is one, and outlines that aren't read have a line with a fault.
//!
//! There is no code. The contracts promise laws over the definitions of the judgement and of the files that it reads.
#![tactic(auto)]

pub mod laws;
