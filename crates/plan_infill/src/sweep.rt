//! The stretches along a line where steps say that its points are deep.
ghost use Rattle.std.specs.Prelude.{◌≡◌, true, false, ◌+◌, ◌<◌, ◌≤◌, ◌<ℤ◌, ◌≤ℤ◌, ◌+ℤ◌, ◌^◌, slice_index_or, pos, ◌-ℤ◌, int_le, unsigned_abs, not, ◌&&◌, if◌then◌else◌, [], ◌∷◌, ◌++◌, IfOk, OnOk, length, All};
ghost use Rattle.scad_geom.specs.Limits.{coordinate_limit};
ghost use Rattle.scad_geom.specs.Sign.{is_zero};
ghost use Rattle.plan_infill.specs.declared.step.Step.{Step};
ghost use Rattle.plan_infill.specs.Steps.{all_of, AreInOrder, IsStep};
ghost use Rattle.plan_infill.specs.Sweep.{is_deep_at, AreStretches, opened, closed, IsOpenWithin};

use crate::run::Run;
use crate::step::Step;
use std::alloc::{AllocError, Global};

/// The maximal stretches, upwards, of at least a length, from steps in the order of their places.
pub(crate) fn stretches(alloc: Global, steps: &[Step], least: u32) -> Result<Vec<Run>, AllocError>
    requires each { All IsStep steps.now }
    requires sorted { AreInOrder steps.now }
    requires behind { all_of (λ s. s.turns) steps.now ≡ pos 0 }
    ensures { IfOk result (λ v. AreStretches (is_deep_at steps.now) least v.items) }
{
    let mut out = Vec::new(alloc);
    let mut sums = Sums { turns: 0, near: 0 };
    let mut since = None;
    'steps: for i in 0..steps.len() {
        sums = with_step(sums, steps[i]);
        if is_last_there(steps, i) {
            since = go_on(&mut out, since, steps[i].at, is_deep(sums), least)?;
        }
    }
    Ok(out)
}

// The winding number and the number of edges near by, at a place.
#[derive(Clone, Copy)]
struct Sums {
    turns: i128,
    near: i128,
}

fn with_step(sums: Sums, step: Step) -> Sums
    requires turns { unsigned_abs sums.turns ≤ 2 ^ 64 }
    requires near { unsigned_abs sums.near ≤ 2 ^ 64 }
    requires step_turns { unsigned_abs step.turns ≤ 1 }
    requires step_near { unsigned_abs step.near ≤ 1 }
    ensures turns { result.turns ≡ sums.turns +ℤ step.turns }
    ensures near { result.near ≡ sums.near +ℤ step.near }
{
    Sums {
        turns: sums.turns + step.turns,
        near: sums.near + step.near,
    }
}

fn is_deep(sums: Sums) -> bool
    ensures { result ≡ (not (is_zero sums.turns) && is_zero sums.near) }
{
    sums.turns != 0 && sums.near == 0
}

// Whether the next step is at a later place.
fn is_last_there(steps: &[Step], i: usize) -> bool
    requires { i < length steps.now }
    ensures last { result ≡ true → (d : Step) → i + 1 < length steps.now
        → (slice_index_or steps.now i d).at <ℤ (slice_index_or steps.now (i + 1) d).at }
    ensures more { result ≡ false → (d : Step) → (i + 1 < length steps.now)
        × ((slice_index_or steps.now (i + 1) d).at ≤ℤ (slice_index_or steps.now i d).at) }
{
    i + 1 == steps.len() || steps[i].at < steps[i + 1].at
}

// From a place on the points are deep or aren't: a stretch starts, goes on or ends there.
fn go_on(
    out: &mut Vec<Run>,
    since: Option<i128>,
    at: i128,
    is_deep: bool,
    least: u32,
) -> Result<Option<i128>, AllocError>
    requires { IsOpenWithin coordinate_limit since at }
    ensures since { IfOk result (λ s. s ≡ opened is_deep since at) }
    ensures out { OnOk result (out.new.items ≡ out.old.items ++ closed is_deep since at least) }
{
    if is_deep {
        return Ok(Some(since.unwrap_or(at)));
    }
    match since {
        Some(from) => {
            push_long(out, from, at - 1, least)?;
            Ok(None)
        }
        None => Ok(None),
    }
}

fn push_long(out: &mut Vec<Run>, from: i128, to: i128, least: u32) -> Result<(), AllocError>
    requires from { unsigned_abs from ≤ coordinate_limit }
    requires to { unsigned_abs to ≤ coordinate_limit }
    ensures { OnOk result (out.new.items ≡ out.old.items
        ++ (if int_le (pos least) (to -ℤ from) then record { from = from; to = to } ∷ [] else [])) }
{
    if to - from >= least as i128 {
        out.push(Run {
            from: from as i32,
            to: to as i32,
        })?;
    }
    Ok(())
}
