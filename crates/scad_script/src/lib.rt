//! Commands as scripts: steps on a desk, then a status with the report's last line.
//! Its contracts say what is left of a script, and its laws what every run of every script promises.
#![tactic(auto)]

mod calls;
mod last_line;
mod laws;
mod loading;
mod refusal;
mod stop;

pub use calls::{make, send};
pub use last_line::report;
pub use laws::{
    created_for_bytes, failed_reports_are_write, files_are_fronts, names_are_given,
    statuses_keep_promises,
};
pub use loading::{Input, load};
pub use refusal::Refusal;
pub use stop::Stop;
