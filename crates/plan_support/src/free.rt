//! Runs without the places of others.
ghost use Rattle.std.specs.Prelude.{◌≡◌, ◌≤◌, ◌<ℤ◌, ◌≤ℤ◌, ◌+ℤ◌, ◌-ℤ◌, ◌++◌, ◌∷◌, [], pos, length, take, IfOk, OnOk, All};
ghost use Rattle.plan_support.specs.Rows.{AreApart};
ghost use Rattle.plan_support.specs.Free.{at_least, some_run, IsEnd, AddsFree, AreLeft};

use plan_infill::Run;
use std::alloc::{AllocError, Global};

/// The stretches of the places that lie on runs and on none of the holes. Both ascend, and are passed once.
pub(crate) fn without(alloc: Global, runs: &[Run], holes: &[Run]) -> Result<Vec<Run>, AllocError>
    requires runs { AreApart runs.now }
    requires holes { AreApart holes.now }
    ensures { IfOk result (λ v. AreLeft runs.now holes.now v.items) }
{
    let mut out = Vec::new(alloc);
    let mut next = 0;
    'runs: for run in runs {
        next = push_free(&mut out, *run, holes, next)?;
    }
    Ok(out)
}

// What is left of one run, behind holes that end before it; answers how many holes end before the next.
fn push_free(out: &mut Vec<Run>, run: Run, holes: &[Run], first: usize) -> Result<usize, AllocError>
    requires apart { AreApart out.old.items }
    requires behind { All (λ r. (r.to +ℤ pos 1) <ℤ run.from) out.old.items }
    requires place { run.from ≤ℤ run.to }
    requires holes { AreApart holes.now }
    requires count { first ≤ length holes.now }
    requires passed { All (λ h. h.to <ℤ run.from) (take first holes.now) }
    ensures { IfOk result (AddsFree out.old.items run holes.now out.new.items) }
{
    let mut from = run.from as i64;
    let mut i = first;
    'holes: while i < holes.len() && holes[i].to < run.to {
        push_some(out, from, before(holes[i]))?;
        from = from.max(behind(holes[i]));
        i += 1;
    }
    push_some(out, from, end_before(run, holes, i))?;
    Ok(i)
}

// The last place of a run before a hole that reaches to its end.
fn end_before(run: Run, holes: &[Run], i: usize) -> i64
    requires { i ≤ length holes.now }
    ensures { IsEnd run holes.now i result }
{
    if i == holes.len() {
        return run.to as i64;
    }
    if run.to < holes[i].from {
        return run.to as i64;
    }
    before(holes[i])
}

// The place before a run, and the one behind it.
fn before(run: Run) -> i64
    ensures value { result ≡ run.from -ℤ pos 1 }
    ensures small { result <ℤ pos 2147483648 }
{
    run.from as i64 - 1
}

fn behind(run: Run) -> i64
    ensures { result ≡ run.to +ℤ pos 1 }
{
    run.to as i64 + 1
}

// Adds the run between two places, where there are some.
fn push_some(out: &mut Vec<Run>, from: i64, to: i64) -> Result<(), AllocError>
    requires from { (pos 0 -ℤ pos 2147483648) ≤ℤ from }
    requires to { to <ℤ pos 2147483648 }
    ensures { OnOk result (out.new.items ≡ out.old.items ++ some_run from to) }
{
    if from <= to {
        out.push(Run {
            from: from as i32,
            to: to as i32,
        })?;
    }
    Ok(())
}

/// The runs that are at least so long.
pub(crate) fn long_runs(alloc: Global, runs: &[Run], least: u32) -> Result<Vec<Run>, AllocError>
    ensures { IfOk result (λ v. v.items ≡ at_least least runs.now) }
{
    let mut out = Vec::new(alloc);
    'runs: for run in runs {
        push_long(&mut out, *run, least)?;
    }
    Ok(out)
}

fn push_long(out: &mut Vec<Run>, run: Run, least: u32) -> Result<(), AllocError>
    ensures { OnOk result (out.new.items ≡ out.old.items ++ at_least least (run ∷ [])) }
{
    if run.to as i64 - run.from as i64 >= least as i64 {
        out.push(run)?;
    }
    Ok(())
}
