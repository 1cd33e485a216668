//! Winding numbers of leaves, by leaf, and a shape over them.
ghost use Rattle.std.specs.Prelude.{◌≡◌, ◌<◌, ◌≤◌, ◌==◌, ◌^◌, ◌++◌, [], ◌+ℤ◌, ◌-ℤ◌, neg_ℤ, pos, ℕ, List, length, slice_index_or, vec_len, unsigned_abs, if◌then◌else◌, IfOk, All};
ghost use Rattle.scad_geom.specs.declared.level.LeafEdge.{LeafEdge};
ghost use Rattle.scad_geom.specs.declared.shape.Shape.{Shape};
ghost use Rattle.scad_geom.specs.Line.{heading};
ghost use Rattle.slice_held.specs.Held.{IsReady, leaf_count};
ghost use Rattle.slice_border.specs.Tally.{IsTally, is_held, headings};
ghost use Rattle.slice_border.specs.Keeping.{in_by, KeepsUp, IsKept, Tells, AreSmall};

use scad_geom::whole::plus;
use scad_geom::{Edge, LeafEdge, Shape};
use slice_held::Held;
use std::alloc::{AllocError, Global};

/// The winding number of each leaf, and a shape with those leaves in whose number isn't 0.
#[derive(Drop)]
pub struct Tally {
    turns: Vec<i64>,
    held: Held,
}

impl Tally {
    /// 0 for each leaf of the list, and all leaves out.
    pub fn new(alloc: Global, edges: &[LeafEdge], shape: &Shape) -> Result<Tally, AllocError>
        ensures { IfOk result (Tells edges.now shape.now []) }
    {
        let turns = zeros(alloc, edges)?;
        let held = Held::new(alloc, shape, turns.len())?;
        Ok(Tally { turns, held })
    }

    /// Adds the headings of edges.
    pub fn add(&mut self, edges: &[LeafEdge], numbers: &[u32])
        requires there { All (λ k. k < length edges.now) numbers.now }
        requires small { AreSmall edges.now numbers.now self.old }
        ensures { (shape : Shape) (ks : List ℕ) → Tells edges.now shape ks self.old
            → Tells edges.now shape (numbers.now ++ ks) self.new }
    {
        'numbers: for k in numbers {
            add_edge(&mut self.turns, &mut self.held, &edges[*k as usize]);
        }
    }

    /// Takes the headings of edges away.
    pub fn take(&mut self, edges: &[LeafEdge], numbers: &[u32])
        requires there { All (λ k. k < length edges.now) numbers.now }
        requires small { AreSmall edges.now numbers.now self.old }
        ensures { (shape : Shape) (ks : List ℕ) → Tells edges.now shape (numbers.now ++ ks) self.old
            → Tells edges.now shape ks self.new }
    {
        'numbers: for k in numbers {
            take_edge(&mut self.turns, &mut self.held, &edges[*k as usize]);
        }
    }

    /// Whether the shape holds.
    pub fn value(&self) -> bool
        requires { IsKept self.now }
        ensures { (edges : List LeafEdge) (shape : Shape) (ks : List ℕ) → Tells edges shape ks self.now
            → result ≡ is_held (λ leaf. headings edges leaf ks) shape }
    {
        self.held.value()
    }
}

// 0 for each leaf of the list.
fn zeros(alloc: Global, edges: &[LeafEdge]) -> Result<Vec<i64>, AllocError>
    ensures leaves { IfOk result (λ v. All (λ e. e.leaf < vec_len v) edges.now) }
    ensures zeros { IfOk result (λ v. IsTally v.items (λ leaf. pos 0)) }
{
    vec![in alloc; 0; leaf_count(edges)]
}

// A number above those of all leaves.
fn leaf_count(edges: &[LeafEdge]) -> usize
    ensures { All (λ e. e.leaf < result) edges.now }
{
    let mut count = 0;
    'edges: for e in edges {
        if count <= e.leaf as usize {
            count = e.leaf as usize + 1;
        }
    }
    count
}

// Adds an edge's heading.
fn add_edge(turns: &mut Vec<i64>, held: &mut Held, e: &LeafEdge)
    requires there { e.now.leaf < vec_len turns.old }
    requires small { unsigned_abs (slice_index_or turns.old.items e.now.leaf (pos 0)) ≤ 2 ^ 62 }
    requires ready { IsReady held.old }
    requires size { leaf_count held.old ≡ vec_len turns.old }
    ensures turns { IsTally turns.new.items (λ k. slice_index_or turns.old.items k (pos 0)
        +ℤ (if e.now.leaf == k then heading e.now.edge else pos 0)) }
    ensures len { vec_len turns.new ≡ vec_len turns.old }
    ensures held { KeepsUp turns.old.items turns.new.items held.old held.new }
{
    turn(turns, held, e.leaf, heading(&e.edge));
}

// Takes it away.
fn take_edge(turns: &mut Vec<i64>, held: &mut Held, e: &LeafEdge)
    requires there { e.now.leaf < vec_len turns.old }
    requires small { unsigned_abs (slice_index_or turns.old.items e.now.leaf (pos 0)) ≤ 2 ^ 62 }
    requires ready { IsReady held.old }
    requires size { leaf_count held.old ≡ vec_len turns.old }
    ensures turns { IsTally turns.new.items (λ k. slice_index_or turns.old.items k (pos 0)
        -ℤ (if e.now.leaf == k then heading e.now.edge else pos 0)) }
    ensures len { vec_len turns.new ≡ vec_len turns.old }
    ensures held { KeepsUp turns.old.items turns.new.items held.old held.new }
{
    turn(turns, held, e.leaf, heading_back(&e.edge));
}

// Adds to a leaf's number, and puts the leaf in or out where the number becomes or leaves 0.
fn turn(turns: &mut Vec<i64>, held: &mut Held, leaf: u32, by: i64)
    requires there { leaf < vec_len turns.old }
    requires small { unsigned_abs (slice_index_or turns.old.items leaf (pos 0)) ≤ 2 ^ 62 }
    requires by { unsigned_abs by ≤ 1 }
    requires ready { IsReady held.old }
    requires size { leaf_count held.old ≡ vec_len turns.old }
    ensures turns { IsTally turns.new.items
        (λ k. slice_index_or turns.old.items k (pos 0) +ℤ (if leaf == k then by else pos 0)) }
    ensures len { vec_len turns.new ≡ vec_len turns.old }
    ensures held { KeepsUp turns.old.items turns.new.items held.old held.new }
{
    let before = is_inside(turns, leaf);
    add(turns, leaf, by);
    let inside = is_inside(turns, leaf);
    if inside != before {
        held.set(leaf, inside);
    }
}

// Adds to a leaf's number.
fn add(turns: &mut Vec<i64>, leaf: u32, by: i64)
    requires there { leaf < vec_len turns.old }
    requires small { unsigned_abs (slice_index_or turns.old.items leaf (pos 0)) ≤ 2 ^ 62 }
    requires by { unsigned_abs by ≤ 1 }
    ensures turns { IsTally turns.new.items
        (λ k. slice_index_or turns.old.items k (pos 0) +ℤ (if leaf == k then by else pos 0)) }
    ensures len { vec_len turns.new ≡ vec_len turns.old }
{
    turns[leaf as usize] = plus(turns[leaf as usize], by);
}

// Whether a leaf is in by its number.
fn is_inside(turns: &[i64], leaf: u32) -> bool
    requires { leaf < length turns.now }
    ensures { result ≡ in_by turns.now leaf }
{
    turns[leaf as usize] != 0
}

fn heading(e: &Edge) -> i64
    ensures value { result ≡ heading e.now }
    ensures size { unsigned_abs result ≤ 1 }
{
    if e.b.y < e.a.y { -1 } else { 1 }
}

fn heading_back(e: &Edge) -> i64
    ensures value { result ≡ neg_ℤ (heading e.now) }
    ensures size { unsigned_abs result ≤ 1 }
{
    if e.b.y < e.a.y { 1 } else { -1 }
}
