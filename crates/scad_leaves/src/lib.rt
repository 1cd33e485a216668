//! The leaves and hulls that statements of a program make, where they stand, and the trees of operations over them.
//! Each is proved to be that of its definition, with the budgets and the faults in their order; only want of memory
//! isn't promised away.
#![tactic(auto)]

mod arguments;
mod call;
mod dimensions;
mod fineness;
mod flat;
mod hulls;
mod leaves;
mod operation;
mod profiles;
mod shapes;
mod space;
mod trees;

pub use arguments::{argued, moved_by};
pub use call::Call;
pub use dimensions::judge_solid;
pub use fineness::called_resolution;
pub use hulls::hull_made;
pub use operation::Operation;
pub use profiles::{profile_count, with_its_profiles};
pub use shapes::{flat_shape, primitive};
pub use space::{Space, Turning, Where, at_first, inside_linear, turned_at};
pub use trees::tree_of_operation;
