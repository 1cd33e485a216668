//! Fixed-point numbers: whole millionths of at most 10^15 in size, in place of floating-point ones.
//! Every result is the exact value rounded once to the nearest millionth, a half away from zero, or
//! the fault that stands for it, each exactly where `specs/Number.antt` says.
#![tactic(auto)]

mod arithmetic;
mod decimal;
mod fault;
mod fixed_point;
pub mod laws;
mod literal;
mod mantissa;
mod power;
mod root;
mod rounding;
mod text;
mod whole;
mod wide;

pub use fault::NumFault;
pub use fixed_point::{MOST, Num, ONE, ONE_PART};
pub use literal::{literal_len, parse_decimal};
pub use rounding::{half_away, half_up};
pub use text::NumText;
pub use wide::{half_away_over, times};
