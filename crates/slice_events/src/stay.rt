//! Edges in buckets of heights.
ghost use Rattle.std.specs.Prelude.{◌≡◌, ◌<◌, ◌≤◌, ◌+◌, ◌-◌, ◌^◌, ◌++◌, length, OnOk, IfOk, unsigned_abs};
ghost use Rattle.std.specs.List.Sorted.{IsPermutation};
ghost use Rattle.scad_geom.specs.Limits.{coordinate_limit};
ghost use Rattle.slice_events.specs.Boxes.{left_end};
ghost use Rattle.slice_events.specs.Lines.{edges_in};
ghost use Rattle.slice_events.specs.Stays.{bucket_of, later_stays, stays_of, all_stays, stay_cmp, AreInOrder};

use crate::line::Line;
use scad_geom::{COORDINATE_LIMIT, Edge};
use std::alloc::{AllocError, Global};
use std::cmp::Ordering;

// The greatest rise of an edge, in size.
const RISE_LIMIT: u32 = 2 * COORDINATE_LIMIT;

/// An edge in one of the buckets that it reaches.
#[derive(Clone, Copy)]
pub(crate) struct Stay {
    pub(crate) bucket: u32,
    /// The x of the edge's leftmost point.
    pub(crate) left: i32,
    /// The number of the edge.
    pub(crate) line: u32,
    /// Whether the edge starts in this bucket.
    pub(crate) starts: bool,
}

/// The stays of all edges, ordered by their buckets and then from left to right.
pub(crate) fn stays(alloc: Global, lines: &[Line], tall: u32) -> Result<Vec<Stay>, AllocError>
    requires tall { 0 < tall }
    requires few { length lines.now < 2 ^ 32 }
    ensures permutation { IfOk result (λ v. IsPermutation (all_stays tall 0 (edges_in lines.now)) v.items) }
    ensures order { IfOk result (λ v. AreInOrder v.items) }
{
    let mut stays = all_stays(alloc, lines, tall)?;
    sort(&mut stays);
    Ok(stays)
}

fn sort(stays: &mut Vec<Stay>)
    ensures permutation { IsPermutation stays.old.items stays.new.items }
    ensures order { AreInOrder stays.new.items }
{
    stays.sort_unstable_by(compare);
}

fn compare(s: &Stay, t: &Stay) -> Ordering
    ensures { result ≡ stay_cmp s.now t.now }
{
    s.bucket.cmp(&t.bucket).then(s.left.cmp(&t.left))
}

fn all_stays(alloc: Global, lines: &[Line], tall: u32) -> Result<Vec<Stay>, AllocError>
    requires tall { 0 < tall }
    requires few { length lines.now < 2 ^ 32 }
    ensures { IfOk result (λ v. v.items ≡ all_stays tall 0 (edges_in lines.now)) }
{
    let mut stays = Vec::new(alloc);
    'lines: for i in 0..lines.len() {
        push_stays(&mut stays, i as u32, &lines[i], tall)?;
    }
    Ok(stays)
}

fn push_stays(stays: &mut Vec<Stay>, line: u32, e: &Line, tall: u32) -> Result<(), AllocError>
    requires tall { 0 < tall }
    ensures { OnOk result (stays.new.items ≡ stays.old.items ++ stays_of tall line e.now.edge) }
{
    let left = left_end(&e.edge);
    let first = bucket_of(tall, e.low_y());
    let last = bucket_of(tall, e.high_y());
    stays.push(Stay {
        bucket: first,
        left,
        line,
        starts: true,
    })?;
    push_later(stays, line, left, first, last)
}

fn push_later(
    stays: &mut Vec<Stay>,
    line: u32,
    left: i32,
    first: u32,
    last: u32,
) -> Result<(), AllocError>
    requires last { last < 2 ^ 31 }
    requires first { first < 2 ^ 31 }
    ensures { OnOk result (stays.new.items ≡ stays.old.items ++ later_stays line left (first + 1) (last - first)) }
{
    'buckets: for bucket in first + 1..last + 1 {
        stays.push(Stay {
            bucket,
            left,
            line,
            starts: false,
        })?;
    }
    Ok(())
}

#[tactic(auto, unfolding(crate::specs::Boxes::left_end))]
pub(crate) fn left_end(e: &Edge) -> i32
    ensures { result ≡ left_end e.now }
{
    if e.b.x < e.a.x { e.b.x } else { e.a.x }
}

#[tactic(auto, unfolding(crate::specs::Stays::bucket_of))]
fn bucket_of(tall: u32, y: i32) -> u32
    requires tall { 0 < tall }
    requires y { unsigned_abs y ≤ coordinate_limit }
    ensures value { result ≡ bucket_of tall y }
    ensures size { result < 2 ^ 31 }
{
    (y + COORDINATE_LIMIT as i32).unsigned_abs() / tall
}

/// The mean rise of the edges: by buckets of this height they have at most about three stays each, taken together. Lower
/// ones give more stays to sort, higher ones more pairs that are compared for nothing.
pub(crate) fn bucket_height(lines: &[Line]) -> u32
    requires { length lines.now < 2 ^ 32 }
    ensures { 0 < result }
{
    let mean = sum_of_rises(lines) / (lines.len() as u64 + 1);
    mean.min(u64::from(RISE_LIMIT)) as u32 + 1
}

fn sum_of_rises(lines: &[Line]) -> u64
    requires { length lines.now < 2 ^ 32 }
{
    let mut sum = 0;
    'lines: for e in lines {
        sum += e.rise.unsigned_abs().min(u64::from(RISE_LIMIT));
    }
    sum
}
