//! How fine circles are made.

use scad_num::Num;
use scad_value::Value;

/// The values of `$fn`, `$fa` and `$fs` where a circle is made.
#[derive(Drop)]
pub struct Fineness {
    pub fn_: Value,
    pub fa: Value,
    pub fs: Value,
}

/// The three numbers that these values are.
#[derive(Clone, Copy)]
pub struct Resolution {
    pub fn_: Num,
    pub fa: Num,
    pub fs: Num,
}
