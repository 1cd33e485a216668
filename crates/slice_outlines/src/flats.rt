//! The flat edges of a list, by height and then from left to right.
ghost use Rattle.std.specs.Prelude.{◌≡◌, ◌<◌, ◌≤◌, ◌-◌, ◌^◌, ◌++◌, ◌∷◌, [], ◌*ℤ◌, ◌≤ℤ◌, true, false, List, length, take, drop, slice_index_or, if◌then◌else◌, unsigned_abs, IfOk, OnOk, All};
ghost use Rattle.std.specs.List.Sorted.{IsPermutation, IsSorted};
ghost use Rattle.std.specs.Ordering.{int_eq};
ghost use Rattle.slice_outlines.specs.declared.flat.Flat.{Flat};
ghost use Rattle.scad_geom.specs.declared.level.LeafEdge.{LeafEdge};
ghost use Rattle.scad_geom.specs.Limits.{coordinate_limit};
ghost use Rattle.scad_geom.specs.Within.{IsEdgeWithin};
ghost use Rattle.scad_geom.specs.Level.{IsLevelWithin};
ghost use Rattle.slice_bundles.specs.Bundles.{edge_at};
ghost use Rattle.slice_outlines.specs.Flats.{AreFlats, IsFlatOf, numbers_of, flat_numbers, flat_cmp, LiesOn, IsOff, AreJoined, StartsBehind};

use crate::flat::Flat;
use scad_geom::wide::times;
use scad_geom::{Edge, LeafEdge, Level};
use std::alloc::{AllocError, Global};
use std::cmp::Ordering;

/// All flat edges.
pub(crate) fn flats(alloc: Global, edges: &[LeafEdge]) -> Result<Vec<Flat>, AllocError>
    requires within { All (λ e. IsEdgeWithin coordinate_limit e.edge) edges.now }
    requires few { length edges.now < 2 ^ 32 }
    ensures { IfOk result (λ v. AreFlats edges.now v.items) }
{
    let mut out = unsorted(alloc, edges)?;
    sort(&mut out)?;
    Ok(out)
}

fn sort(flats: &mut Vec<Flat>) -> Result<(), AllocError>
    ensures permutation { IsPermutation flats.old.items flats.new.items }
    ensures sorted { OnOk result (IsSorted flat_cmp flats.new.items) }
{
    flats.sort_by(compare)
}

fn unsorted(alloc: Global, edges: &[LeafEdge]) -> Result<Vec<Flat>, AllocError>
    requires within { All (λ e. IsEdgeWithin coordinate_limit e.edge) edges.now }
    requires few { length edges.now < 2 ^ 32 }
    ensures all { IfOk result (λ v. numbers_of v.items ≡ flat_numbers 0 edges.now) }
    ensures each { IfOk result (λ v. All (IsFlatOf edges.now) v.items) }
{
    let mut out = Vec::new(alloc);
    'edges: for i in 0..edges.len() {
        push_flat(&mut out, &edges[i].edge, i as u32)?;
    }
    Ok(out)
}

fn push_flat(out: &mut Vec<Flat>, e: &Edge, number: u32) -> Result<(), AllocError>
    requires within { IsEdgeWithin coordinate_limit e.now }
    ensures numbers { OnOk result (numbers_of out.new.items ≡ numbers_of out.old.items
        ++ (if int_eq e.now.a.y e.now.b.y then number ∷ [] else [])) }
    ensures each { (edges : List LeafEdge) → number < length edges → edge_at edges number ≡ e.now
        → All (IsFlatOf edges) out.old.items → OnOk result (All (IsFlatOf edges) out.new.items) }
{
    if is_flat(e) {
        out.push(flat_of(e, number))?;
    }
    Ok(())
}

fn is_flat(e: &Edge) -> bool
    ensures { result ≡ int_eq e.now.a.y e.now.b.y }
{
    e.a.y == e.b.y
}

fn flat_of(e: &Edge, number: u32) -> Flat
    requires within { IsEdgeWithin coordinate_limit e.now }
    requires flat { e.now.a.y ≡ e.now.b.y }
    ensures number { result.number ≡ number }
    ensures is { (edges : List LeafEdge) → number < length edges → edge_at edges number ≡ e.now
        → IsFlatOf edges result }
{
    if e.b.x < e.a.x {
        Flat {
            y: e.a.y,
            left: e.b.x,
            right: e.a.x,
            number,
        }
    } else {
        Flat {
            y: e.a.y,
            left: e.a.x,
            right: e.b.x,
            number,
        }
    }
}

fn compare(e: &Flat, f: &Flat) -> Ordering
    ensures { result ≡ flat_cmp e.now f.now }
{
    e.y.cmp(&f.y).then(e.left.cmp(&f.left))
}

/// The place behind the flat edges of a height, which stand from a place on.
pub(crate) fn flats_to(flats: &[Flat], from: usize, at: &Level) -> usize
    requires from { from ≤ length flats.now }
    requires at { IsLevelWithin coordinate_limit at.now }
    ensures from { from ≤ result }
    ensures to { result ≤ length flats.now }
    ensures on { All (LiesOn at.now) (take (result - from) (drop from flats.now)) }
    ensures off { IsOff at.now (drop result flats.now) }
{
    let mut to = from;
    'flats: while is_on(flats, to, at) {
        to += 1;
    }
    to
}

// Whether there is one at a place, and it lies on a height.
fn is_on(flats: &[Flat], i: usize, at: &Level) -> bool
    requires { IsLevelWithin coordinate_limit at.now }
    ensures there { result ≡ true → i < length flats.now }
    ensures on { result ≡ true → (f : Flat) → LiesOn at.now (slice_index_or flats.now i f) }
    ensures off { result ≡ false → IsOff at.now (drop i flats.now) }
{
    i < flats.len() && lies_on(&flats[i], at)
}

fn lies_on(e: &Flat, at: &Level) -> bool
    requires { IsLevelWithin coordinate_limit at.now }
    ensures { result ≡ int_eq (e.now.y *ℤ at.now.d) at.now.n }
{
    times::<21, 44>(e.y as i128, at.d) == at.n
}

/// A stretch of flat edges of one height that are joined: the place behind them, and its right end.
#[derive(Clone, Copy)]
pub(crate) struct Joined {
    pub(crate) to: usize,
    pub(crate) right: i32,
}

/// The stretch that begins with the flat edge at a place, among those of one height.
pub(crate) fn joined_from(flats: &[Flat], from: usize) -> Joined
    requires { from < length flats.now }
    ensures from { from < result.to }
    ensures to { result.to ≤ length flats.now }
    ensures joined { AreJoined (take (result.to - from) (drop from flats.now)) result.right }
    ensures size { unsigned_abs result.right ≤ coordinate_limit }
    ensures next { StartsBehind result.right (drop result.to flats.now) }
{
    let mut joined = Joined {
        to: from + 1,
        right: flats[from].right,
    };
    'flats: while is_joined(flats, joined.to, joined.right) {
        joined = Joined {
            to: joined.to + 1,
            right: joined.right.max(flats[joined.to].right),
        };
    }
    joined
}

// Whether there is one at a place, and it starts no farther to the right than an end.
fn is_joined(flats: &[Flat], i: usize, right: i32) -> bool
    ensures there { result ≡ true → i < length flats.now }
    ensures by { result ≡ true → (f : Flat) → (slice_index_or flats.now i f).left ≤ℤ right }
    ensures behind { result ≡ false → StartsBehind right (drop i flats.now) }
{
    i < flats.len() && flats[i].left <= right
}
