//! The ground that several crates stand on: words for results and for want of memory, names of characters, and laws of
//! whole numbers, Booleans and lists that the standard library lacks. It has no code; what it states is proved once here.
#![tactic(auto)]
