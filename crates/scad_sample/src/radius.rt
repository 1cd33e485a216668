//! The numbers that follow a number, and the radii that they give.
ghost use Rattle.std.specs.Prelude.{◌≡◌, ◌≤◌};
ghost use Rattle.scad_sample.specs.Sample.{next, radius};

/// The number that follows.
pub(crate) fn next(s: u32) -> u32
    ensures { result ≡ next s }
{
    ((1_103_515_245 * u64::from(s) + 12_345) % 2_147_483_648) as u32
}

/// The radius in micrometres that a number gives.
pub(crate) fn radius(s: u32) -> u32
    ensures value { result ≡ radius s }
    ensures most { result ≤ 6000 }
{
    2000 + s / 65_536 % 4001
}
