//! The values of a program and its operators on them: element by element through vectors, a value or the first fault.
//! Each call gives what the tables of `specs/` say of its operands, and takes memory for strings and vectors alone.
#![tactic(auto)]

mod comparison;
mod duplicate;
mod elementwise;
mod fault;
mod indexing;
mod kind;
mod matrix_product;
mod measures;
mod negative;
mod operator;
mod pairs;
mod printer;
mod product;
mod text;
mod value;

pub use comparison::equal;
pub use duplicate::copy;
pub use fault::ValueFault;
pub use indexing::index;
pub use kind::{elements_of, number_of};
pub use measures::{made, nesting, truth};
pub use operator::{binary, unary};
pub use product::numbers_in;
pub use text::{encoded, push_text, text_of};
pub use value::{Value, Values};
