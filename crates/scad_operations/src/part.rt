//! What stands in a vector that is being made.

use scad_num::Num;
use scad_value::Value;

/// A value, or the numbers of a range, which take memory once the vector's steps are known to suffice.
#[derive(Drop)]
pub enum Part {
    One(Value),
    /// Start, step and end.
    Run(Num, Num, Num),
}
