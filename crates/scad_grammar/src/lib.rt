//! The grammar of OpenSCAD source, as relations between tokens and programs, and a reader that moves by one token.
//! The contracts of its laws give that no tokens derive two programs, and that the reader finds the one that they derive.
#![tactic(auto)]

pub mod laws;
