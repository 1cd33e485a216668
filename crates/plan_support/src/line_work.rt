//! The work on one line: what lies below higher layers, from the top layer down.
ghost use Rattle.std.specs.Prelude.{◌≡◌, ◌<◌, ◌+◌, ◌||◌, ◌++◌, [], min, length, slice_index_or, ℤ, IfOk, OnOk, All};
ghost use Rattle.plan_support.specs.Rows.{AreApart, AreRows, runs_at};
ghost use Rattle.plan_support.specs.On.{is_on};
ghost use Rattle.plan_support.specs.Lines.{HasLine, wanted_of, greatest_count};

use crate::line::{Line, Want};
use crate::lists::Lists;
use crate::rows::Rows;
use crate::union::united;
use plan_infill::Run;
use std::alloc::{AllocError, Global};

/// Works the line of a number at a height.
pub(crate) fn work_line(
    alloc: Global,
    layers: &[Rows],
    number: u32,
    y: i32,
    want: Want,
) -> Result<Line, AllocError>
    requires { All AreRows layers.now }
    ensures line { IfOk result (HasLine layers.now y want) }
    ensures number { IfOk result (λ l. l.number ≡ number) }
{
    let mut above = Vec::new(alloc);
    let mut count: u64 = 0;
    let mut covers = Lists::new(alloc);
    let mut n = layers.len();
    'layers: while 0 < n {
        n -= 1;
        let below = above.as_slice();
        count = added(count, below);
        push_wanted(&mut covers, below, want)?;
        above = with_runs(alloc, above, runs_of(layers, n, y))?;
    }
    covers.shrink_to_fit();
    Ok(Line {
        number,
        count,
        covers,
    })
}

// The runs of a layer at a height.
fn runs_of(layers: &[Rows], n: usize, y: i32) -> &[Run]
    requires layer { n < length layers.now }
    requires rows { All AreRows layers.now }
    ensures { result.now ≡ runs_at y (slice_index_or layers.now n []) }
{
    layers[n].runs_at(y)
}

fn added(count: u64, runs: &[Run]) -> u64
    ensures { result ≡ min (count + length runs.now) greatest_count }
{
    count.saturating_add(runs.len() as u64)
}

// Keeps the stretches of one layer, where there are some and they are wanted.
fn push_wanted(covers: &mut Lists, runs: &[Run], want: Want) -> Result<(), AllocError>
    ensures { OnOk result (covers.new ≡ covers.old ++ wanted_of want runs.now) }
{
    if want == Want::Stretches && !runs.is_empty() {
        covers.push(runs)?;
    }
    Ok(())
}

// What runs cover together with those of one more layer.
fn with_runs(alloc: Global, above: Vec<Run>, runs: &[Run]) -> Result<Vec<Run>, AllocError>
    requires above { AreApart above.items }
    requires runs { AreApart runs.now }
    ensures apart { IfOk result (λ v. AreApart v.items) }
    ensures on { IfOk result (λ v. (x : ℤ) → is_on v.items x ≡ (is_on above.items x || is_on runs.now x)) }
{
    if runs.is_empty() {
        return Ok(above);
    }
    let mut all = above;
    all.extend_from_slice(runs)?;
    united(alloc, all)
}
