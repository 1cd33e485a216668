//! The last lines.
ghost use Rattle.std.specs.Prelude.{◌≡◌, IfOk};
ghost use Rattle.scad_slice.specs.Script.{done_line, plan_line};

use gcode_text::push_hundred_thousandths;
use slice_work::Summary;
use std::alloc::{AllocError, Global};
use text_scan::push_number;

/// `done: N layers, L loops`
#[tactic(auto, unfolding(crate::specs::Script::done_line))]
pub fn done_line(alloc: Global, told: &Summary) -> Result<Vec<u8>, AllocError>
    ensures { IfOk result (λ line. line.items ≡ done_line told.now.layers told.now.loops) }
{
    let mut line = Vec::from_slice(alloc, b"done: ")?;
    push_number(&mut line, u64::from(told.layers))?;
    line.extend_from_slice(b" layers, ")?;
    push_number(&mut line, told.loops)?;
    line.extend_from_slice(b" loops\n")?;
    Ok(line)
}

/// `done: N layers, K loops, M moves, E e`
#[tactic(auto, unfolding(crate::specs::Script::plan_line))]
pub fn plan_line(alloc: Global, told: &Summary) -> Result<Vec<u8>, AllocError>
    ensures { IfOk result (λ line. line.items ≡ plan_line told.now.layers told.now.loops told.now.moves told.now.e) }
{
    let mut line = Vec::from_slice(alloc, b"done: ")?;
    push_number(&mut line, u64::from(told.layers))?;
    line.extend_from_slice(b" layers, ")?;
    push_number(&mut line, told.loops)?;
    line.extend_from_slice(b" loops, ")?;
    push_number(&mut line, told.moves)?;
    line.extend_from_slice(b" moves, E ")?;
    push_hundred_thousandths(&mut line, u128::from(told.e))?;
    line.extend_from_slice(b"\n")?;
    Ok(line)
}
