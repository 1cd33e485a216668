//! Runs united.
ghost use Rattle.std.specs.Prelude.{◌≡◌, ◌≤ℤ◌, ◌+ℤ◌, ℤ, pos, int_le, IfOk, OnOk, All};
ghost use Rattle.std.specs.Int.{int_max};
ghost use Rattle.std.specs.List.Sorted.{IsPermutation};
ghost use Rattle.plan_support.specs.Rows.{AreApart};
ghost use Rattle.plan_support.specs.Unite.{StartInOrder, TakeIn};
ghost use Rattle.plan_support.specs.On.{is_on};

use plan_infill::Run;
use std::alloc::{AllocError, Global};

/// The stretches of the places that lie on any of the runs, upwards.
///
/// The time is that of sorting the runs.
pub(crate) fn united(alloc: Global, runs: Vec<Run>) -> Result<Vec<Run>, AllocError>
    requires { All (λ r. r.from ≤ℤ r.to) runs.items }
    ensures apart { IfOk result (λ v. AreApart v.items) }
    ensures on { IfOk result (λ v. (x : ℤ) → is_on v.items x ≡ is_on runs.items x) }
{
    let mut sorted = runs;
    sort(&mut sorted)?;
    let mut out = Vec::new(alloc);
    'runs: for run in &sorted {
        take_in(&mut out, *run)?;
    }
    Ok(out)
}

fn sort(runs: &mut Vec<Run>) -> Result<(), AllocError>
    ensures permutation { IsPermutation runs.old.items runs.new.items }
    ensures order { OnOk result (StartInOrder runs.new.items) }
{
    runs.sort_by(|r, s| r.from.cmp(&s.from))
}

// One more run, which doesn't start before any of the others.
fn take_in(out: &mut Vec<Run>, run: Run) -> Result<(), AllocError>
    requires apart { AreApart out.old.items }
    requires place { run.from ≤ℤ run.to }
    requires behind { All (λ r. r.from ≤ℤ run.from) out.old.items }
    ensures { OnOk result (TakeIn out.old.items run out.new.items) }
{
    let Some(last) = out.pop() else {
        out.push(run)?;
        return Ok(());
    };
    if reaches(last, run) {
        out.push(joined(last, run))?;
    } else {
        out.push(last)?;
        out.push(run)?;
    }
    Ok(())
}

// The run from the start of the first one to the later end.
fn joined(first: Run, second: Run) -> Run
    ensures from { result.from ≡ first.from }
    ensures to { result.to ≡ int_max first.to second.to }
{
    Run {
        from: first.from,
        to: first.to.max(second.to),
    }
}

// Whether no whole place stands between the first run and the second one behind it.
fn reaches(first: Run, second: Run) -> bool
    ensures { result ≡ int_le second.from (first.to +ℤ pos 1) }
{
    second.from as i64 <= first.to as i64 + 1
}
