//! The descent that builds the syntax tree of a list of tokens.
//! The contract gives exactly the program that the tokens derive, or the first token with a fault.
#![tactic(auto)]

// the answers
mod fault;

// a program, its statements and definitions
mod definition;
mod descent;
mod instance;
mod mark;
mod statement;

// expressions, from the loosest operator to what stands alone
mod argument;
mod element;
mod expression;
mod head;
mod node;
mod operand;
mod operator;
mod primary;
mod vector;

// what all of them use: the token at the front, and the reader that remembers the first fault
mod front;
mod reader;

pub use descent::parse;
pub use fault::ParseFault;
