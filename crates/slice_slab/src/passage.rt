//! Where an edge passes a height.
ghost use Rattle.std.specs.Prelude.{pos, ◌<ℤ◌, ◌≤◌, ◌^◌, unsigned_abs};

/// Where an edge that rises passes a height: at the x `x` over its rise and the divisor of the height. All numbers are
/// small enough for the comparisons.
#[derive(Clone, Copy)]
pub(crate) struct Passage {
    pub(crate) number: u32,
    pub(crate) x: i128,
    pub(crate) rise: i128,
    pub(crate) run: i128,
    ghost rises: { pos 0 <ℤ rise },
    ghost x_size: { unsigned_abs x ≤ 2 ^ 89 },
    ghost rise_size: { unsigned_abs rise ≤ 2 ^ 22 },
    ghost run_size: { unsigned_abs run ≤ 2 ^ 22 },
}
