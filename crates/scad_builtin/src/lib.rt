//! The functions of the language, over values.
//! `call` gives the value of a function of these arguments, or the fault that stands for it, exactly
//! as `specs/Builtin.antt` says: one line a function, beside the table in docs/language.md.
#![tactic(auto)]

mod argument;
mod concat;
mod cross;
mod dispatch;
mod extreme;
mod fault;
mod function;
mod id;
mod kind;
mod length;
mod name;
mod norm;
mod number;
mod string;

pub use dispatch::call;
pub use fault::BuiltinFault;
