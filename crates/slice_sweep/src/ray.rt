//! Which way an edge goes on from a place.
ghost use Rattle.std.specs.Prelude.{pos, ◌<ℤ◌, ◌≤◌, ◌^◌, unsigned_abs};

/// An edge that rises, as it goes on from a place: what its slope is, and its number. All numbers are small enough for
/// the comparisons.
#[derive(Clone, Copy)]
pub(crate) struct Ray {
    pub(crate) number: u32,
    pub(crate) rise: i128,
    pub(crate) run: i128,
    ghost rises: { pos 0 <ℤ rise },
    ghost rise_size: { unsigned_abs rise ≤ 2 ^ 22 },
    ghost run_size: { unsigned_abs run ≤ 2 ^ 22 },
}
