//! Edges in ascending order, of which some are taken.
ghost use Rattle.std.specs.Prelude.{◌≡◌, ◌<◌, ◌≤◌, false, true, length, slice_index_or, IfOk};
ghost use Rattle.std.specs.List.Sorted.{IsPermutation, IsPartitionPoint};
ghost use Rattle.slice_loops.specs.Order.{starts_before};
ghost use Rattle.slice_loops.specs.Drawing.{TakesLeastFrom};
ghost use Rattle.slice_loops.specs.Ascending.{IsAscending, NoneStarts};
ghost use Rattle.slice_loops.specs.Remaining.{remaining, IsInOrder, IsUntaken, Takes, StayTaken, IsFirstUntaken};

use crate::edge_order::sort;
use scad_geom::{Edge, Pt, cmp_point};
use std::alloc::{AllocError, Global};

/// Edges in ascending order, of which some are taken.
#[derive(Drop)]
pub(crate) struct Remaining {
    edges: Vec<Edge>,
    taken: Vec<bool>,
    // At the first place of the edges that start at a point: the edges from there up to this place are taken.
    passed: Vec<usize>,
}

impl Remaining {
    /// All the edges, none taken.
    pub(crate) fn new(alloc: Global, edges: &[Edge]) -> Result<Remaining, AllocError>
        ensures order { IfOk result (λ r. IsInOrder r) }
        ensures all { IfOk result (λ r. IsPermutation edges.now (remaining r)) }
    {
        let mut sorted = Vec::from_slice(alloc, edges)?;
        sort(&mut sorted);
        let count = sorted.len();
        let taken = vec![in alloc; false; count]?;
        let passed = vec![in alloc; 0; count]?;
        Ok(Remaining {
            edges: sorted,
            taken,
            passed,
        })
    }

    /// How many edges there are, with those that are taken.
    pub(crate) fn len(&self) -> usize
        ensures { result ≡ length self.now.edges.items }
    {
        self.edges.len()
    }

    /// Whether the edge at a place is taken.
    pub(crate) fn is_taken(&self, place: usize) -> bool
        requires order { IsInOrder self.now }
        requires inside { place < length self.now.edges.items }
        ensures { result ≡ slice_index_or self.now.taken.items place false }
    {
        self.taken[place]
    }

    /// Takes the edge at a place.
    pub(crate) fn take(&mut self, place: usize) -> Edge
        requires order { IsInOrder self.old }
        requires there { IsUntaken self.old place }
        ensures { Takes self.old place result self.new }
    {
        self.taken[place] = true;
        self.edges[place]
    }

    /// Takes the least edge of those that start at a point.
    pub(crate) fn take_from(&mut self, at: Pt) -> Edge
        requires order { IsInOrder self.old }
        requires there { NoneStarts at (remaining self.old) → ⊥ }
        ensures least { TakesLeastFrom at (remaining self.old) result (remaining self.new) }
        ensures order { IsInOrder self.new }
        ensures taken { StayTaken self.old self.new }
    {
        let group = first_from(&self.edges, at);
        let place = untaken_from(&self.taken, group.max(self.passed[group]));
        let edge = self.take(place);
        self.passed[group] = place + 1;
        edge
    }
}

// How many edges start before a point: the place of the first of those that start there.
fn first_from(edges: &[Edge], at: Pt) -> usize
    requires { IsAscending edges.now }
    ensures { IsPartitionPoint (λ e. starts_before at e ≡ true) (λ e. starts_before at e ≡ false) edges.now result }
{
    edges.partition_point(|e| cmp_point(e.a, at).is_lt())
}

// The first place from one on whose edge isn't taken.
fn untaken_from(taken: &[bool], from: usize) -> usize
    requires { from ≤ length taken.now }
    ensures { IsFirstUntaken taken.now from result }
{
    let mut place = from;
    'places: while place < taken.len() && taken[place] {
        place += 1;
    }
    place
}
