//! Laws of outlines: a tree of solids has outlines at each layer, and it and a shape over an edge list have one list of them.
//!
//! There is no code. The contracts promise laws over the definitions of pieces, of outlines and of a layer's outlines.
#![tactic(auto)]

pub mod laws;
