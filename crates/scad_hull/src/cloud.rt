//! Points of space with the blocks of their neighbours.
ghost use Rattle.std.specs.Prelude.{◌≡◌, ◌<◌, ◌≤◌, ◌^◌, ◌<ℤ◌, ℕ, pos, unsigned_abs, length, slice_index_or};
ghost use Rattle.std.specs.Bool.{OnTrue};
ghost use Rattle.scad_geom.specs.declared.point3.Pt3.{Pt3};
ghost use Rattle.scad_hull.specs.Space.{IsSmall, IsNarrow, depth_of};
ghost use Rattle.scad_hull.specs.Blocks.{IsWithin, IsSmallBlock, AreBlocks, least_of, least_corner};

use crate::block::{Block, block_end};
use crate::turning::{Normal, is_inside};
use scad_geom::Pt3;

/// Points with their blocks.
#[derive(Clone, Copy)]
pub(crate) struct Cloud<'a> {
    pub points: &'a [Pt3],
    pub blocks: &'a [Block],
    ghost blocked: { AreBlocks points.now blocks.now },
}

/// Where the block that begins here ends, if its box lies wholly on the inner side of the plane; else the place itself.
pub(crate) fn inner_end(cloud: &Cloud<'_>, normal: &Normal, a: Pt3, i: usize) -> usize
    requires normal { IsNarrow normal.now }
    requires a { IsSmall a }
    requires i { i < length cloud.now.points.now }
    ensures from { i ≤ result }
    ensures to { result ≤ length cloud.now.points.now }
    ensures inner { (k : ℕ) (d : Pt3) → i ≤ k → k < result
        → pos 0 <ℤ depth_of normal.now a (slice_index_or cloud.now.points.now k d) }
{
    if i % 32 != 0 || !is_inner(&cloud.blocks[i / 32], normal, a) {
        return i;
    }
    block_end(cloud.points, i)
}

// Whether a box lies on the inner side of the plane.
fn is_inner(block: &Block, normal: &Normal, a: Pt3) -> bool
    requires block { IsSmallBlock block.now }
    requires normal { IsNarrow normal.now }
    requires a { IsSmall a }
    ensures { OnTrue result ((p : Pt3) → IsWithin block.now p → pos 0 <ℤ depth_of normal.now a p) }
{
    is_inside(normal, a, least_corner(block, normal))
}

// The corner of a box that lies least deep.
fn least_corner(block: &Block, normal: &Normal) -> Pt3
    requires block { IsSmallBlock block.now }
    requires normal { IsNarrow normal.now }
    ensures value { result ≡ least_corner normal.now block.now }
    ensures small { IsSmall result }
{
    Pt3 {
        x: least_of(normal.x, block.low.x, block.high.x),
        y: least_of(normal.y, block.low.y, block.high.y),
        z: least_of(normal.z, block.low.z, block.high.z),
    }
}

fn least_of(n: i128, low: i32, high: i32) -> i32
    requires low { unsigned_abs low ≤ 2 ^ 20 }
    requires high { unsigned_abs high ≤ 2 ^ 20 }
    ensures value { result ≡ least_of n low high }
    ensures small { unsigned_abs result ≤ 2 ^ 20 }
{
    if n < 0 { high } else { low }
}
