//! Neighbouring passages that coincide, in bundles.
ghost use Rattle.std.specs.Prelude.{◌≡◌, ◌<◌, ◌∷◌, [], ◌++◌, length, IfOk, OnOk, IfSome};
ghost use Rattle.slice_slab.specs.Passages.{bundles_of, is_aligned, ends_bundle};

use crate::order::{by_slope, by_x};
use crate::passage::Passage;
use slice_bundles::Bundle;
use std::alloc::{AllocError, Global};
use std::cmp::Ordering;
use std::mem;

pub(crate) fn group(alloc: Global, passages: &[Passage]) -> Result<Vec<Bundle>, AllocError>
    ensures { IfOk result (λ v. v.items ≡ bundles_of passages.now) }
{
    let mut out = Vec::new(alloc);
    let mut current = Vec::new(alloc);
    'passages: for i in 0..passages.len() {
        current.push(passages[i].number)?;
        if is_last(passages, i) {
            close(alloc, &mut out, &mut current)?;
        }
    }
    Ok(out)
}

// The numbers so far become a bundle.
fn close(alloc: Global, out: &mut Vec<Bundle>, current: &mut Vec<u32>) -> Result<(), AllocError>
    ensures out { OnOk result (out.new.items ≡ out.old.items ++ current.old.items ∷ []) }
    ensures current { OnOk result (current.new.items ≡ []) }
{
    out.push(taken(alloc, current))?;
    Ok(())
}

// Takes the numbers out. One alone leaves the memory to those of the next bundle.
fn taken(alloc: Global, current: &mut Vec<u32>) -> Bundle
    ensures bundle { result ≡ current.old.items }
    ensures current { current.new.items ≡ [] }
{
    match alone(current.as_slice()) {
        Some(edge) => {
            current.clear();
            Bundle::of_one(edge)
        }
        None => Bundle::from_vec(mem::replace(current, Vec::new(alloc))),
    }
}

// The number of a list that has one alone.
fn alone(numbers: &[u32]) -> Option<u32>
    ensures { IfSome result (λ k. numbers.now ≡ k ∷ []) }
{
    match numbers {
        [edge] => Some(*edge),
        _ => None,
    }
}

// Whether the passage doesn't coincide with the next, or is the last.
fn is_last(passages: &[Passage], i: usize) -> bool
    requires { i < length passages.now }
    ensures { result ≡ ends_bundle passages.now i }
{
    i + 1 == passages.len() || !are_aligned(&passages[i], &passages[i + 1])
}

fn are_aligned(p: &Passage, q: &Passage) -> bool
    ensures { result ≡ is_aligned p.now q.now }
{
    matches!(by_x(p, q), Ordering::Equal) && matches!(by_slope(p, q), Ordering::Equal)
}
