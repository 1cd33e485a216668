//! How a run of the slicer ends: statuses with the faults, places, budgets and texts that they carry.
//! Its contract gives each status its number and the exact line that the report ends with.
#![tactic(auto)]

mod budget;
mod chars;
mod fault;
mod file_name;
mod line;
mod place;
mod settings;
mod status;
mod text;
mod verdict;

pub use budget::{Budget, BudgetKind};
pub use chars::Chars;
pub use fault::{Fault, FaultKind};
pub use file_name::FileName;
pub use place::{Place, constant_places};
pub use settings::{SetFault, SetKind};
pub use status::{OUT_OF_MEMORY, READ_FAULT, Status, WRITE_FAULT, constant_lines};
pub use text::Text;
pub use verdict::BadKind;
