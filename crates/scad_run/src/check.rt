//! The ends of the commands that tell what a source means: `check` and `tree`.
ghost use Rattle.std.specs.Prelude.{◌≡◌, ◌≤◌, IfOk};
ghost use Rattle.scad_script.specs.Script.{ends};
ghost use Rattle.scad_tree.specs.View.{solid_of};
ghost use Rattle.scad_run.specs.SourceReport.{ok_line, check_end, check_script, tree_script};
ghost use Rattle.scad_run.specs.Playing.{IsEnd};

use scad_fault::{Budget, Text};
use scad_script::{Refusal, Stop};
use scad_slice::LAYER_LIMIT;
use scad_tree::Tree;
use std::alloc::{AllocError, Global};
use text_scan::push_number;

/// The tree's text.
pub fn shown(alloc: Global, tree: &Tree) -> Result<Text, Stop>
    ensures { IsEnd (tree_script (solid_of tree.now)) result }
{
    let text = tree.print(alloc)?;
    Ok(text)
}

/// The line with the tree's numbers, for layers of this height in micrometres, or that it has too many layers. No memory holds
/// a tree with more leaves or triangles than a number can count.
pub fn checked(alloc: Global, tree: &Tree, height: u32) -> Result<Text, Stop>
    requires { 1 ≤ height }
    ensures { IsEnd (check_script height (solid_of tree.now)) result }
{
    let leaves = tree.leaves();
    let triangles = tree.triangles();
    if leaves == u64::MAX || triangles == u64::MAX {
        return Err(Stop::Memory);
    }
    numbers(alloc, leaves, triangles, tree.layers(height))
}

/// The end of `check` with these numbers.
fn numbers(alloc: Global, leaves: u64, triangles: u64, layers: u32) -> Result<Text, Stop>
    ensures { IsEnd (ends (check_end leaves triangles layers)) result }
{
    if layers > LAYER_LIMIT {
        return Err(Stop::Ends(Refusal::Over(Budget::layers(u64::from(layers)))));
    }
    let line = ok_line(alloc, leaves, triangles, layers)?;
    Ok(Text::from_vec(line))
}

/// `ok: L leaves, T triangles, N layers`
#[tactic(auto, unfolding(crate::specs::SourceReport::ok_line))]
fn ok_line(alloc: Global, leaves: u64, triangles: u64, layers: u32) -> Result<Vec<u8>, AllocError>
    ensures { IfOk result (λ line. line.items ≡ ok_line leaves triangles layers) }
{
    let mut line = Vec::from_slice(alloc, b"ok: ")?;
    push_number(&mut line, leaves)?;
    line.extend_from_slice(b" leaves, ")?;
    push_number(&mut line, triangles)?;
    line.extend_from_slice(b" triangles, ")?;
    push_number(&mut line, layers)?;
    line.extend_from_slice(b" layers\n")?;
    Ok(line)
}
