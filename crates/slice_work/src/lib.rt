//! The layers of a part, worked by several workers and written in order.
//!
//! The contracts promise that each layer below the first that passes a budget is worked and written once, in order,
//! with the bytes that one worker alone would write, and that the first such budget is answered.
#![tactic(auto)]

mod fault;
mod hatches;
mod laid_layer;
mod layer;
mod layer_lines;
mod layer_work;
mod part;
mod part_rows;
mod print;
mod round;
mod round_layers;
mod summary;
mod sums;
mod survey_fault;
mod want;
mod worker;
mod workers;

pub use fault::WorkFault;
pub use layer::{Drawn, LayerEnd};
pub use layer_board::Share;
pub use layer_work::LayerWork;
pub use part::work;
pub use part_rows::survey;
pub use plan_layer::LayerPlan;
pub use print::Print;
pub use summary::Summary;
pub use survey_fault::SurveyFault;
pub use want::Want;
pub use worker::share;
