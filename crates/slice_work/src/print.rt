//! How a part is printed.
ghost use Rattle.std.specs.Prelude.{◌≤◌};
ghost use Rattle.layer_board.specs.Limits.{worker_limit};
ghost use Rattle.scad_words.specs.Settings.{AreInRange};

use crate::want::Want;
use scad_words::Settings;

/// What is wanted of a part, by which settings, and how many workers share its layers.
#[derive(Clone, Copy)]
pub struct Print {
    pub settings: Settings,
    pub want: Want,
    pub workers: u32,
    ghost in_range: { AreInRange settings },
    ghost some: { 1 ≤ workers },
    ghost most: { workers ≤ worker_limit },
}
