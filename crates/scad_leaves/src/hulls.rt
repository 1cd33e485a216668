//! Hulls of the trees of statements, with their budgets.

ghost use Rattle.std.specs.Prelude.{◌≡◌, ◌<◌, ◌≤◌, IfOk, IfSome, Some, drop, length};
ghost use Rattle.scad_hull.specs.Faces.{hull_of};
ghost use Rattle.scad_hull.specs.Flat.{ring_hull_of};
ghost use Rattle.scad_tree.specs.Points.{points_of};
ghost use Rattle.scad_tree.specs.View.{solid_of};
ghost use Rattle.scad_machine.specs.Answers.{Does, nothing};
ghost use Rattle.scad_machine.specs.Machine.{held, state_of};
ghost use Rattle.scad_machine.specs.State.{State};
ghost use Rattle.scad_leaves.specs.Hulls.{judge_united, hull_refusal, hulled, hull_leaf, solid_hull, hull_profile, turned_hull, hull_made};

use crate::call::Call;
use crate::flat::{judge_points, judge_sides, swept};
use crate::leaves::{count_leaf, count_triangles};
use crate::profiles::{profiles_from, replace_profiles};
use crate::space::{Space, Turning, Where};
use hull_laws::hulls_are_solids;
use scad_fault::{BudgetKind, FaultKind, Place};
use scad_hull::laws::rings_are_convex;
use scad_hull::{HullFault, Ring2, hull, ring_hull};
use scad_machine::{EvalFault, Machine, named_fault, over};
use scad_matrix::Matrix;
use scad_num::Num;
use scad_solid::Triangles;
use scad_tree::Tree;
use std::alloc::Global;

/// The tree of a hull's children has neither an intersection nor a difference.
#[tactic(auto, unfolding(crate::specs::Hulls::judge_united, scad_machine::specs::State::fault_of))]
fn judge_united(alloc: Global, at: Place, name: &[u8], tree: &Tree) -> Result<(), EvalFault>
    ensures { (s : State) → Does nothing (judge_united at name.now (solid_of tree.now) s) result s }
{
    if tree.is_united() {
        Ok(())
    } else {
        Err(named_fault(alloc, FaultKind::LeftOut, at, name))
    }
}

/// Why there is no hull.
fn refusal(at: Place, why: HullFault) -> EvalFault
    ensures { result ≡ hull_refusal at why }
{
    match why {
        HullFault::Points(_) => over(BudgetKind::HullPoints, at),
        HullFault::Memory => EvalFault::Memory,
    }
}

/// The solid round the corners of a tree's leaves.
#[tactic(auto, using(crate::proofs::HullFacts::hulls), unfolding(crate::specs::Hulls::hulled))]
fn solid_round(alloc: Global, at: Place, tree: &Tree) -> Result<Option<Triangles>, EvalFault>
    ensures does { (s : State) → Does (λ o. o) (hulled at (hull_of (points_of (solid_of tree.now))) s) result s }
    ensures some { IfOk result (λ o. IfSome o (λ t. 0 < length t)) }
{
    hulls_are_solids();
    let points = tree.points(alloc)?;
    match hull(alloc, points.as_slice()) {
        Ok(found) => Ok(found),
        Err(why) => Err(refusal(at, why)),
    }
}

/// The leaf of a hull is counted, and then its triangles.
#[tactic(auto, unfolding(crate::specs::Hulls::hull_leaf))]
fn hull_leaf<'p>(
    at: Place,
    found: Option<Triangles>,
    m: &mut Machine<'p>,
) -> Result<Tree, EvalFault>
    requires { IfSome found (λ t. 0 < length t) }
    ensures does { Does solid_of (hull_leaf at found (state_of m.old)) result (state_of m.new) }
    ensures kept { held m.new ≡ held m.old }
{
    let Some(triangles) = found else {
        return Ok(Tree::empty());
    };
    count_leaf(at, m)?;
    count_triangles(triangles.count() as u64, at, m)?;
    Ok(Tree::leaf(triangles))
}

/// A hull of the corners of all leaves of a tree.
#[tactic(auto, unfolding(crate::specs::Hulls::solid_hull))]
fn solid_hull<'p>(
    alloc: Global,
    at: Place,
    tree: &Tree,
    m: &mut Machine<'p>,
) -> Result<Tree, EvalFault>
    ensures does { Does solid_of (solid_hull at (solid_of tree.now) (state_of m.old)) result (state_of m.new) }
    ensures kept { held m.new ≡ held m.old }
{
    let found = solid_round(alloc, at, tree)?;
    hull_leaf(at, found, m)
}

/// The ring round the points of profiles from a number on.
#[tactic(auto, using(crate::proofs::HullFacts::hulls), unfolding(crate::specs::Hulls::hulled))]
fn ring_round<'p>(
    alloc: Global,
    at: Place,
    from: usize,
    m: &Machine<'p>,
) -> Result<Option<Ring2>, EvalFault>
    ensures does { (s : State) → Does (λ o. o) (hulled at (ring_hull_of (drop from m.now.profiles.items)) s) result s }
    ensures three { IfOk result (λ o. IfSome o (λ r. 3 ≤ length r)) }
{
    rings_are_convex();
    match ring_hull(alloc, profiles_from(from, m)) {
        Ok(found) => Ok(found),
        Err(why) => Err(refusal(at, why)),
    }
}

/// A hull as a profile that isn't moved any more.
#[tactic(auto, unfolding(crate::specs::Hulls::hull_profile))]
fn hull_profile<'p>(
    stand: Stand,
    t: &Turning,
    alloc: Global,
    points: &[(Num, Num)],
    m: &mut Machine<'p>,
) -> Result<Tree, EvalFault>
    requires { 3 ≤ length points.now }
    ensures does { Does solid_of (hull_profile stand.at stand.from t.now stand.whole (Some points.now) (state_of
        m.old)) result (state_of m.new) }
    ensures kept { held m.new ≡ held m.old }
{
    count_leaf(stand.at, m)?;
    judge_points(stand.at, points.len())?;
    judge_sides(alloc, t.word, points)?;
    replace_profiles(stand.from, points, m)?;
    swept(alloc, stand.at, points, t, &stand.whole, m)
}

/// Where a hull inside `rotate_extrude` stands, and the number from which on the points of profiles are its own.
#[derive(Clone, Copy)]
struct Stand {
    at: Place,
    from: usize,
    whole: Matrix,
}

/// A hull of the points of profiles; no hull is no profile.
#[tactic(auto, unfolding(crate::specs::Hulls::turned_hull, crate::specs::Hulls::hull_profile, scad_machine::specs::Machine::state_of))]
fn turned_hull<'p>(
    stand: Stand,
    t: &Turning,
    alloc: Global,
    m: &mut Machine<'p>,
) -> Result<Tree, EvalFault>
    ensures does { Does solid_of (turned_hull stand.at stand.from t.now stand.whole (state_of m.old)) result (state_of
        m.new) }
    ensures kept { held m.new ≡ held m.old }
{
    match ring_round(alloc, stand.at, stand.from, m)? {
        Some(ring) => hull_profile(stand, t, alloc, ring.as_slice(), m),
        None => Ok(Tree::empty()),
    }
}

/// The hull of the tree of its children, whose profiles' points are those from a number on: a solid, inside
/// `rotate_extrude` a profile that is turned, and nothing where the points are flat. LeftOut where the tree has an
/// intersection or a difference, then the budget HullPoints, then what is said of a leaf.
#[tactic(auto, unfolding(crate::specs::Hulls::hull_made, crate::specs::Hulls::hull_in))]
pub fn hull_made<'p>(
    alloc: Global,
    call: Call<'p>,
    w: &Where,
    from: usize,
    tree: &Tree,
    m: &mut Machine<'p>,
) -> Result<Tree, EvalFault>
    ensures does { Does solid_of (hull_made call.entry.at call.entry.name.now w.now from (solid_of tree.now) (state_of
        m.old)) result (state_of m.new) }
    ensures kept { held m.new ≡ held m.old }
{
    let at = call.at;
    judge_united(alloc, at, call.name, tree)?;
    match w.space {
        Space::Solid => solid_hull(alloc, at, tree, m),
        Space::Linear(_, _) => solid_hull(alloc, at, tree, m),
        Space::Turned(t) => {
            let whole = w.whole;
            turned_hull(Stand { at, from, whole }, &t, alloc, m)
        }
    }
}
