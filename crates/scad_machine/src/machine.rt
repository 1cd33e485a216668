//! The state of an evaluation.

ghost use Rattle.std.specs.Prelude.{◌≤◌};
ghost use Rattle.scad_machine.specs.State.{step_limit};

use scad_fault::Text;
use scad_num::Num;
use scad_scope::Frames;

/// The most steps that a program takes.
pub const STEP_LIMIT: u32 = 5_000_000;

/// The greatest depth of a node.
pub const DEPTH_LIMIT: u32 = 100_000;

/// How deep vectors lie in one another at most.
pub const NESTING_LIMIT: u32 = 200;

/// The frames and counts of an evaluation, and the lines of `echo` so far.
#[derive(Drop)]
pub struct Machine<'p> {
    pub frames: Frames<'p>,
    /// The `$` names, each frame with the one before it as its parent.
    pub along: Frames<'p>,
    /// The frame from which the other names are sought.
    pub here: u32,
    pub steps_left: u32,
    /// How many levels of depth an expression has that is evaluated, its own counted.
    pub depth_left: u32,
    pub leaves: u32,
    pub triangles: u64,
    /// The points of the profiles of those leaves inside `rotate_extrude` that stand in trees.
    pub profiles: Vec<(Num, Num)>,
    pub echoes: Vec<Text>,
    ghost within: { steps_left ≤ step_limit },
}
