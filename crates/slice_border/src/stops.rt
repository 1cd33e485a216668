//! Stops from left to right, each place once.
ghost use Rattle.std.specs.Prelude.{◌≡◌, ◌<◌, length, OnOk, IfOk};
ghost use Rattle.std.specs.List.Sorted.{IsPermutation};
ghost use Rattle.slice_events.specs.Distinct.{distinct_by, stays_by};
ghost use Rattle.slice_border.specs.Stops.{spots_in, is_left, AreSorted, AreStopsOf};

use crate::stop::{Stop, compare};
use std::alloc::{AllocError, Global};

/// The distinct ones of some stops of one level, from left to right. It sorts those that it is given.
pub fn distinct_stops(alloc: Global, stops: &mut Vec<Stop>) -> Result<Vec<Stop>, AllocError>
    ensures { IfOk result (λ v. AreStopsOf (spots_in stops.old.items) (spots_in v.items)) }
{
    sort(stops)?;
    distinct(alloc, stops)
}

fn sort(stops: &mut Vec<Stop>) -> Result<(), AllocError>
    ensures permutation { IsPermutation stops.old.items stops.new.items }
    ensures sorted { OnOk result (AreSorted (spots_in stops.new.items)) }
{
    stops.sort_by(compare)
}

fn distinct(alloc: Global, stops: &[Stop]) -> Result<Vec<Stop>, AllocError>
    ensures { IfOk result (λ v. spots_in v.items ≡ distinct_by is_left (spots_in stops.now)) }
{
    let mut out = Vec::new(alloc);
    'stops: for i in 0..stops.len() {
        if stays(stops, i) {
            out.push(stops[i])?;
        }
    }
    Ok(out)
}

// Whether the stop is the last one or lies to the left of the next.
fn stays(stops: &[Stop], i: usize) -> bool
    requires { i < length stops.now }
    ensures { result ≡ stays_by is_left (spots_in stops.now) i }
{
    i + 1 == stops.len() || compare(&stops[i], &stops[i + 1]).is_lt()
}
