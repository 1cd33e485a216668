//! Points in blocks of neighbours.
ghost use Rattle.std.specs.Prelude.{◌≡◌, ◌<◌, ◌≤◌, ◌+◌, ◌^◌, ◌≤ℤ◌, min, unsigned_abs, ℕ, All, IfOk, length, slice_index_or};
ghost use Rattle.scad_geom.specs.declared.point3.Pt3.{Pt3};
ghost use Rattle.scad_hull.specs.Space.{IsSmall};
ghost use Rattle.scad_hull.specs.Blocks.{IsWithin, IsPartOf, IsSmallBlock, AreBlocks};

use scad_geom::Pt3;
use std::alloc::{AllocError, Global};

/// The box round a block of neighbours.
#[derive(Clone, Copy)]
pub(crate) struct Block {
    pub low: Pt3,
    pub high: Pt3,
}

/// The blocks of points, 32 in each.
pub(crate) fn blocks_of(alloc: Global, points: &[Pt3]) -> Result<Vec<Block>, AllocError>
    requires points { All IsSmall points.now }
    ensures { IfOk result (λ v. AreBlocks points.now v.items) }
{
    let mut blocks = Vec::new(alloc);
    let mut start = 0;
    'starts: while start < points.len() {
        blocks.push(block_from(points, start))?;
        start = block_end(points, start);
    }
    Ok(blocks)
}

/// Where the block from this point on ends.
pub(crate) fn block_end(points: &[Pt3], start: usize) -> usize
    requires start { start < length points.now }
    ensures { result ≡ min (start + 32) (length points.now) }
{
    if points.len() - start < 32 {
        points.len()
    } else {
        start + 32
    }
}

// The box round the block from this point on.
fn block_from(points: &[Pt3], start: usize) -> Block
    requires points { All IsSmall points.now }
    requires start { start < length points.now }
    ensures small { IsSmallBlock result }
    ensures within { (k : ℕ) (d : Pt3) → start ≤ k → k < start + 32 → k < length points.now
        → IsWithin result (slice_index_or points.now k d) }
{
    let first = points[start];
    let mut block = Block {
        low: first,
        high: first,
    };
    let end = block_end(points, start);
    'points: for i in start..end {
        block = grown(block, points[i]);
    }
    block
}

// The box round a box and a point.
fn grown(block: Block, p: Pt3) -> Block
    requires block { IsSmallBlock block }
    requires p { IsSmall p }
    ensures small { IsSmallBlock result }
    ensures block { IsPartOf block result }
    ensures p { IsWithin result p }
{
    Block {
        low: lowest(block.low, p),
        high: highest(block.high, p),
    }
}

fn lowest(a: Pt3, b: Pt3) -> Pt3
    requires a { IsSmall a }
    requires b { IsSmall b }
    ensures small { IsSmall result }
    ensures first_x { result.x ≤ℤ a.x }
    ensures first_y { result.y ≤ℤ a.y }
    ensures first_z { result.z ≤ℤ a.z }
    ensures second_x { result.x ≤ℤ b.x }
    ensures second_y { result.y ≤ℤ b.y }
    ensures second_z { result.z ≤ℤ b.z }
{
    Pt3 {
        x: lesser(a.x, b.x),
        y: lesser(a.y, b.y),
        z: lesser(a.z, b.z),
    }
}

fn highest(a: Pt3, b: Pt3) -> Pt3
    requires a { IsSmall a }
    requires b { IsSmall b }
    ensures small { IsSmall result }
    ensures first_x { a.x ≤ℤ result.x }
    ensures first_y { a.y ≤ℤ result.y }
    ensures first_z { a.z ≤ℤ result.z }
    ensures second_x { b.x ≤ℤ result.x }
    ensures second_y { b.y ≤ℤ result.y }
    ensures second_z { b.z ≤ℤ result.z }
{
    Pt3 {
        x: greater(a.x, b.x),
        y: greater(a.y, b.y),
        z: greater(a.z, b.z),
    }
}

fn lesser(a: i32, b: i32) -> i32
    requires a { unsigned_abs a ≤ 2 ^ 20 }
    requires b { unsigned_abs b ≤ 2 ^ 20 }
    ensures small { unsigned_abs result ≤ 2 ^ 20 }
    ensures first { result ≤ℤ a }
    ensures second { result ≤ℤ b }
{
    if a < b { a } else { b }
}

fn greater(a: i32, b: i32) -> i32
    requires a { unsigned_abs a ≤ 2 ^ 20 }
    requires b { unsigned_abs b ≤ 2 ^ 20 }
    ensures small { unsigned_abs result ≤ 2 ^ 20 }
    ensures first { a ≤ℤ result }
    ensures second { b ≤ℤ result }
{
    if a < b { b } else { a }
}
