//! Leaves inside extrusions.

ghost use Rattle.std.specs.Prelude.{◌≡◌, ◌≤◌, ◌-◌, [], true, length, IfOk};
ghost use Rattle.scad_shapes.specs.Limits.{triangle_limit};
ghost use Rattle.std.specs.List.{list_all};
ghost use Rattle.scad_extrude.specs.Count.{triangles_of as triangles_in};
ghost use Rattle.scad_extrude.specs.declared.count.FlatForm.TheVariants.{Linear as Prism, Turned as Sweep};
ghost use Rattle.scad_modules.specs.Outline.{is_outline, points_in as count_of, ring_of};
ghost use Rattle.scad_modules.specs.Profile.{profile_of};
ghost use Rattle.scad_modules.specs.Primitive.{are_fragments};
ghost use Rattle.scad_modules.specs.View.{outline, outlines};
ghost use Rattle.scad_tree.specs.View.{solid_of};
ghost use Rattle.scad_machine.specs.Answers.{Does, nothing};
ghost use Rattle.scad_machine.specs.Machine.{held, state_of};
ghost use Rattle.scad_machine.specs.State.{State};
ghost use Rattle.scad_leaves.specs.FlatLeaves.{linear_leaf, judge_points, judge_sides, swept, turned_leaf, leaf_in, flat_leaves, profile_turned};
ghost use Rattle.scad_leaves.specs.Products.{argued, count_triangles};
ghost use Rattle.scad_leaves.specs.View.{trees_in};

use crate::arguments::argued;
use crate::leaves::{TRIANGLE_LIMIT, count_leaf, count_triangles, placed};
use crate::profiles::keep_profile;
use crate::space::{Space, Turning, Where};
use scad_extrude::{FlatForm, linear, triangles_of, turned};
use scad_fault::{BudgetKind, FaultKind, Place};
use scad_machine::{EvalFault, Machine, fault_at, named_fault, over};
use scad_matrix::Matrix;
use scad_modules::{Outline, crosses_axis, points_in, profile_of, ring_of, turns_of};
use scad_num::Num;
use scad_tree::Tree;
use std::alloc::Global;

/// Counts the triangles of a prism over an outline of so many points.
#[tactic(auto, unfolding(crate::specs::Products::count_triangles, scad_machine::specs::State::over, scad_machine::specs::Machine::state_of, scad_machine::specs::Machine::held))]
fn count_prism<'p>(points: usize, at: Place, m: &mut Machine<'p>) -> Result<(), EvalFault>
    requires { 3 ≤ points }
    ensures does { Does nothing (count_triangles (triangles_in (Prism points)) at (state_of m.old)) result
        (state_of m.new) }
    ensures kept { held m.new ≡ held m.old }
{
    if points > TRIANGLE_LIMIT as usize {
        return Err(over(BudgetKind::Triangles, at));
    }
    count_triangles(triangles_of(&FlatForm::Linear(points as u32)), at, m)
}

/// An outline that is a leaf: where its shape was called, and the matrix that places it.
#[derive(Clone, Copy)]
struct FlatLeaf<'a> {
    at: Place,
    shape: &'a Outline,
    whole: &'a Matrix,
}

/// A leaf inside `linear_extrude`: it is counted, then its triangles, and then it is placed.
#[tactic(auto, unfolding(crate::specs::FlatLeaves::linear_leaf))]
fn linear_leaf<'p>(
    alloc: Global,
    leaf: FlatLeaf,
    height: Num,
    center: bool,
    m: &mut Machine<'p>,
) -> Result<Tree, EvalFault>
    requires { is_outline (outline leaf.shape.now) ≡ true }
    ensures does { Does solid_of (linear_leaf leaf.entry.at (outline leaf.entry.shape.now) height center
        leaf.entry.whole.now (state_of m.old)) result (state_of m.new) }
    ensures kept { held m.new ≡ held m.old }
{
    count_leaf(leaf.at, m)?;
    count_prism(points_in(leaf.shape), leaf.at, m)?;
    let ring = ring_of(alloc, leaf.shape)?;
    placed(
        alloc,
        leaf.at,
        linear(alloc, &ring, height, center, leaf.whole),
    )
}

/// The points of an outline are at most as many as all leaves have triangles.
#[tactic(auto, unfolding(crate::specs::FlatLeaves::judge_points, scad_machine::specs::State::over))]
pub(crate) fn judge_points(at: Place, points: usize) -> Result<(), EvalFault>
    ensures does { (s : State) → Does nothing (judge_points at points s) result s }
    ensures few { IfOk result (λ _. points ≤ triangle_limit) }
{
    if points as u64 > TRIANGLE_LIMIT {
        return Err(over(BudgetKind::Triangles, at));
    }
    Ok(())
}

/// A profile doesn't stand on both sides of the axis.
#[tactic(auto, unfolding(crate::specs::FlatLeaves::judge_sides, scad_machine::specs::State::fault_of))]
pub(crate) fn judge_sides(alloc: Global, word: Place, ring: &[(Num, Num)]) -> Result<(), EvalFault>
    ensures { (s : State) → Does nothing (judge_sides word ring.now s) result s }
{
    if crosses_axis(ring) {
        return Err(named_fault(alloc, FaultKind::BadArgument, word, b"rotate_extrude"));
    }
    Ok(())
}

/// Counts the triangles of a profile of so many points in so many turns.
#[tactic(auto, using(crate::proofs::Sweeps::bounds))]
fn count_sweep<'p>(
    points: usize,
    turns: u32,
    at: Place,
    m: &mut Machine<'p>,
) -> Result<(), EvalFault>
    requires some { 3 ≤ points }
    requires few { points ≤ triangle_limit }
    requires turns { are_fragments turns ≡ true }
    ensures does { Does nothing (count_triangles (triangles_in (Sweep points turns)) at (state_of m.old)) result
        (state_of m.new) }
    ensures kept { held m.new ≡ held m.old }
    ensures few { IfOk result (λ _. turns ≤ triangle_limit) }
{
    count_triangles(triangles_of(&FlatForm::Turned(points as u32, turns)), at, m)
}

/// A profile is turned: its triangles are counted, and then it is placed.
#[tactic(auto, unfolding(crate::specs::FlatLeaves::swept))]
pub(crate) fn swept<'p>(
    alloc: Global,
    at: Place,
    ring: &[(Num, Num)],
    t: &Turning,
    whole: &Matrix,
    m: &mut Machine<'p>,
) -> Result<Tree, EvalFault>
    requires some { 3 ≤ length ring.now }
    requires few { length ring.now ≤ triangle_limit }
    ensures does { Does solid_of (swept at ring.now t.now whole.now (state_of m.old)) result (state_of m.new) }
    ensures kept { held m.new ≡ held m.old }
{
    let turns = turns_of(t.resolution, ring);
    count_sweep(ring.len(), turns, at, m)?;
    placed(alloc, at, turned(alloc, ring, turns, whole))
}

/// The outline of a leaf, placed as a profile.
#[tactic(auto, using(crate::proofs::Readings::readings))]
fn profile_made(
    alloc: Global,
    leaf: FlatLeaf,
    name: &[u8],
    by: &Matrix,
) -> Result<Vec<(Num, Num)>, EvalFault>
    requires { is_outline (outline leaf.shape.now) ≡ true }
    ensures does { (s : State) → Does (λ v. v.items) (argued leaf.entry.at name.now (profile_of by.now (ring_of (outline
        leaf.entry.shape.now))) s) result s }
    ensures count { IfOk result (λ v. length v.items ≡ count_of (outline leaf.entry.shape.now)) }
    ensures some { IfOk result (λ v. 3 ≤ length v.items) }
{
    let ring = ring_of(alloc, leaf.shape)?;
    argued(alloc, leaf.at, name, profile_of(alloc, by, &ring))
}

/// A placed profile is judged, kept for a hull and turned.
#[tactic(auto, unfolding(crate::specs::FlatLeaves::profile_turned))]
fn profile_turned<'p>(
    alloc: Global,
    at: Place,
    ring: &[(Num, Num)],
    t: &Turning,
    whole: &Matrix,
    m: &mut Machine<'p>,
) -> Result<Tree, EvalFault>
    requires some { 3 ≤ length ring.now }
    requires few { length ring.now ≤ triangle_limit }
    ensures does { Does solid_of (profile_turned at ring.now t.now whole.now (state_of m.old)) result (state_of m.new) }
    ensures kept { held m.new ≡ held m.old }
{
    judge_sides(alloc, t.word, ring)?;
    keep_profile(ring, m)?;
    swept(alloc, at, ring, t, whole, m)
}

/// A leaf inside `rotate_extrude`: it is counted, then the points of its outline are judged; the outline is
/// placed as a profile, which is judged in its turn, kept for a hull and turned.
#[tactic(auto, unfolding(crate::specs::FlatLeaves::turned_leaf))]
fn turned_leaf<'p>(
    alloc: Global,
    leaf: FlatLeaf,
    name: &[u8],
    t: &Turning,
    m: &mut Machine<'p>,
) -> Result<Tree, EvalFault>
    requires { is_outline (outline leaf.shape.now) ≡ true }
    ensures does { Does solid_of (turned_leaf leaf.entry.at name.now (outline leaf.entry.shape.now) t.now
        leaf.entry.whole.now (state_of m.old)) result (state_of m.new) }
    ensures kept { held m.new ≡ held m.old }
{
    count_leaf(leaf.at, m)?;
    judge_points(leaf.at, points_in(leaf.shape))?;
    let profile = profile_made(alloc, leaf, name, &t.profile)?;
    profile_turned(alloc, leaf.at, &profile, t, leaf.whole, m)
}

/// The leaf of an outline.
#[tactic(auto, unfolding(crate::specs::FlatLeaves::leaf_in, scad_machine::specs::State::fault))]
fn leaf_in<'p>(
    alloc: Global,
    at: Place,
    name: &[u8],
    shape: &Outline,
    w: &Where,
    m: &mut Machine<'p>,
) -> Result<Tree, EvalFault>
    requires { is_outline (outline shape.now) ≡ true }
    ensures does { Does solid_of (leaf_in at name.now (outline shape.now) w.now.whole w.now.space (state_of m.old))
        result (state_of m.new) }
    ensures kept { held m.new ≡ held m.old }
{
    let whole = &w.whole;
    let leaf = FlatLeaf { at, shape, whole };
    match w.space {
        Space::Solid => Err(fault_at(alloc, FaultKind::MixedDimensions, at)),
        Space::Linear(height, center) => linear_leaf(alloc, leaf, height, center, m),
        Space::Turned(t) => turned_leaf(alloc, leaf, name, &t, m),
    }
}

/// The leaves of outlines.
pub(crate) fn flat_leaves<'p>(
    alloc: Global,
    at: Place,
    name: &[u8],
    w: &Where,
    shapes: &[Outline],
    m: &mut Machine<'p>,
) -> Result<Vec<Tree>, EvalFault>
    requires { list_all is_outline (outlines shapes.now) ≡ true }
    ensures does { Does trees_in (flat_leaves at name.now w.now (outlines shapes.now) [] (state_of m.old)) result
        (state_of m.new) }
    ensures kept { held m.new ≡ held m.old }
{
    let mut so_far = Vec::new(alloc);
    'outlines: for shape in shapes {
        let tree = leaf_in(alloc, at, name, shape, w, m)?;
        so_far.push(tree)?;
    }
    Ok(so_far)
}
