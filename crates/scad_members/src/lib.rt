//! What gives the members of an operation, the statements of a scope, the turns of a `for` and the children that
//! `children` names, on a stack of what waits for their trees.
//! `specs/Meaning.antt` says what statements give, and `specs/Stack.antt` what is left to do by it: each call is proved to
//! go on with exactly that, or to give the first fault or budget; only want of memory isn't promised away.
#![tactic(auto)]

mod call_children;
mod child_range;
mod chosen_children;
mod frames;
mod item;
mod scope_members;
mod scopes;
mod selection;
mod stack;
mod turn;
mod variable;
mod work;

pub use chosen_children::{children, children_by};
pub use frames::{depth, go_back, go_deeper, here};
pub use item::{is_marked, item_place};
pub use scope_members::{combined, made_of, members};
pub use scopes::open_scope;
pub use stack::Stack;
pub use turn::{let_in, looped, turns, variables};
pub use variable::Variable;
pub use work::{Focus, Frame, at_work};
