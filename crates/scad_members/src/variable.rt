//! Variables of a `for`, as they stand in memory.

use scad_leaves::Call;

/// A variable of a `for`, with the number of the argument behind it.
#[derive(Clone, Copy)]
pub struct Variable<'p> {
    pub call: Call<'p>,
    pub name: &'p [u8],
    pub next: usize,
}
