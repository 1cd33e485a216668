//! A desk in memory, on which tests run the slicer: files by name, calls that are to fail, a room for each output.
//! Its contract says exactly what each call answers and changes, beside the clauses of every desk.
#![tactic(auto)]

mod calls;
mod last_name;
mod memory;
mod shelf;
mod sink;

pub use memory::MemoryDesk;
