//! Laws of winding numbers: when edges may be moved, joined or cancelled, and when points have the same one.
//!
//! There is no code. The contracts promise laws over the definitions of segments, of their winding numbers and of
//! nearness.
#![tactic(auto)]

pub mod laws;
