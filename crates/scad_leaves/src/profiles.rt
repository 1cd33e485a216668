//! The points of the profiles of leaves inside `rotate_extrude`.

ghost use Rattle.std.specs.Prelude.{◌≡◌, ◌++◌, OnOk, drop, length};
ghost use Rattle.scad_tree.specs.View.{solid_of};
ghost use Rattle.scad_machine.specs.Answers.{Does, nothing};
ghost use Rattle.scad_machine.specs.Machine.{held, state_of};
ghost use Rattle.scad_machine.specs.State.{gives};
ghost use Rattle.scad_leaves.specs.Profiles.{keep_profile, replace_profiles, with_its_profiles};

use scad_machine::{EvalFault, Machine};
use scad_num::Num;
use scad_tree::Tree;
use std::alloc::AllocError;

/// How many points of profiles are kept.
#[tactic(auto, unfolding(scad_machine::specs::Machine::state_of))]
pub fn profile_count(m: &Machine) -> usize
    ensures { result ≡ length (state_of m.now).profiles }
{
    m.profiles.len()
}

/// Those from a number on.
#[tactic(auto, using(crate::proofs::KeptPoints::points))]
pub(crate) fn profiles_from<'a>(from: usize, m: &'a Machine) -> &'a [(Num, Num)]
    ensures { result.now ≡ drop from m.now.profiles.items }
{
    let all = m.profiles.as_slice();
    if from > all.len() {
        return &all[all.len()..];
    }
    &all[from..]
}

fn push_all(out: &mut Vec<(Num, Num)>, ring: &[(Num, Num)]) -> Result<(), AllocError>
    ensures { OnOk result (out.new.items ≡ out.old.items ++ ring.now) }
{
    'points: for p in ring {
        out.push(*p)?;
    }
    Ok(())
}

/// Keeps the points of a profile.
#[tactic(auto, unfolding(scad_machine::specs::Machine::state_of, scad_machine::specs::Machine::held))]
pub(crate) fn keep_profile<'p>(ring: &[(Num, Num)], m: &mut Machine<'p>) -> Result<(), EvalFault>
    ensures does { Does nothing (keep_profile ring.now (state_of m.old)) result (state_of m.new) }
    ensures kept { held m.new ≡ held m.old }
{
    push_all(&mut m.profiles, ring)?;
    Ok(())
}

/// Keeps those of a profile in place of those from a number on.
#[tactic(auto, unfolding(scad_machine::specs::Machine::state_of, scad_machine::specs::Machine::held))]
pub(crate) fn replace_profiles<'p>(
    from: usize,
    ring: &[(Num, Num)],
    m: &mut Machine<'p>,
) -> Result<(), EvalFault>
    ensures does { Does nothing (replace_profiles from ring.now (state_of m.old)) result (state_of m.new) }
    ensures kept { held m.new ≡ held m.old }
{
    m.profiles.truncate(from);
    push_all(&mut m.profiles, ring)?;
    Ok(())
}

/// Where the tree of a statement is empty, the points of its profiles aren't kept: there are as many as before it.
#[tactic(auto, unfolding(crate::specs::Profiles::with_its_profiles, scad_machine::specs::Machine::state_of, scad_machine::specs::Machine::held))]
pub fn with_its_profiles<'p>(from: usize, tree: &Tree, m: &mut Machine<'p>)
    ensures does { with_its_profiles from (solid_of tree.now) (state_of m.old) ≡ gives (solid_of tree.now) (state_of
        m.new) }
    ensures kept { held m.new ≡ held m.old }
{
    if tree.is_empty() {
        m.profiles.truncate(from);
    }
}
