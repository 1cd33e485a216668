//! A command that is carried out.
ghost use Rattle.std.specs.Prelude.{◌≤◌};
ghost use Rattle.scad_words.specs.Numbers.{worker_limit};
ghost use Rattle.scad_words.specs.Settings.{AreInRange};

use scad_words::{Command, Settings};

/// A command, the settings that it goes by, and how many workers share the layers of what it draws.
#[derive(Drop)]
pub struct Order<'a> {
    pub command: &'a Command,
    pub settings: Settings,
    pub workers: u32,
    ghost in_range: { AreInRange settings },
    ghost some: { 1 ≤ workers },
    ghost most: { workers ≤ worker_limit },
}
