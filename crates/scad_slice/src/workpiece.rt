//! A tree that is to be printed.
ghost use Rattle.std.specs.Prelude.{◌≤◌};
ghost use Rattle.scad_words.specs.Numbers.{worker_limit};
ghost use Rattle.scad_words.specs.Settings.{AreInRange};

use scad_tree::Tree;
use scad_words::Settings;

/// A tree that is to be printed: by which settings, how many workers share its layers, and the gate round the work on
/// each of them.
#[derive(Drop)]
pub struct Workpiece<'a, G> {
    pub tree: &'a Tree,
    pub settings: Settings,
    pub workers: u32,
    pub gate: &'a G,
    ghost in_range: { AreInRange settings },
    ghost some: { 1 ≤ workers },
    ghost most: { workers ≤ worker_limit },
}
