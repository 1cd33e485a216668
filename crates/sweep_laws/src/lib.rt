//! Laws of a sweep upwards over the pieces of a border: it keeps what doesn't change from height to height.
//!
//! There is no code. The contracts promise laws over the definitions of pieces and of merged pieces.
#![tactic(auto)]

pub mod laws;
