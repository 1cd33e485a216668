//! The tokens of OpenSCAD source.
//! The contract gives exactly the tokens of every text with their places, or its first refused place.
#![tactic(auto)]

mod bytes;
mod character;
mod escape;
mod fault;
mod front;
mod gap;
mod key;
pub mod laws;
mod scanner;
mod sign;
mod string_body;
mod token;
mod word;

pub use fault::LexFault;
pub use scanner::lex;
pub use token::{Key, Sign, Token, TokenKind, Tokens};
