//! The stack of an evaluation of expressions: what waits there, what begins, and what each does with a value.
//! `specs/Meaning.antt` says what an expression gives, one rule for each kind of node, and `specs/Stack.antt` what is left to do by
//! it: each call is proved to go on with exactly that, or to give the first fault or budget; only want of memory isn't promised
//! away.
#![tactic(auto)]

mod calls;
mod defaults;
mod elements;
mod frame;
mod gathering;
mod name;
mod name_bindings;
mod other_part;
mod purpose;
mod rounds;
mod stack;
mod turns;

pub use calls::{call_of_name, first_argument, next_argument};
pub use defaults::next_parameter;
pub use elements::{element, more_elements};
pub use frame::{
    Focus, Frame, Further, Gathering, Inside, Loop, Opening, Right, Round, Turning, Variable,
    Within, Written, at_work,
};
pub use gathering::gathered;
pub use name::{Name, pass_name};
pub use name_bindings::{bind_more, bind_next};
pub use other_part::further;
pub use rounds::round;
pub use stack::Stack;
