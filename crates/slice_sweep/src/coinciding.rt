//! Neighbouring rays that coincide, in bundles.
ghost use Rattle.std.specs.Prelude.{◌≡◌, ◌<◌, ◌∷◌, [], ◌++◌, true, length, IfOk, OnOk};
ghost use Rattle.slice_sweep.specs.Rays.{bundles_of, ends_bundle};

use crate::ray::Ray;
use crate::slope::are_parallel;
use slice_bundles::Bundle;
use std::alloc::{AllocError, Global};
use std::mem;

/// The bundles of sorted rays.
pub(crate) fn group(alloc: Global, rays: &[Ray]) -> Result<Vec<Bundle>, AllocError>
    ensures { IfOk result (λ v. v.items ≡ bundles_of rays.now) }
{
    let mut out = Vec::new(alloc);
    let mut current = Vec::new(alloc);
    'rays: for i in 0..rays.len() {
        let number = rays[i].number;
        if is_last(rays, i) {
            close(alloc, &mut out, &mut current, number)?;
        } else {
            current.push(number)?;
        }
    }
    Ok(out)
}

// The numbers so far and one more become a bundle.
fn close(
    alloc: Global,
    out: &mut Vec<Bundle>,
    current: &mut Vec<u32>,
    last: u32,
) -> Result<(), AllocError>
    ensures out { OnOk result (out.new.items ≡ out.old.items ++ (current.old.items ++ last ∷ []) ∷ []) }
    ensures current { OnOk result (current.new.items ≡ []) }
{
    let bundle = taken(alloc, current, last)?;
    out.push(bundle)?;
    Ok(())
}

// Takes the numbers out, and one more behind them. One alone takes no memory.
fn taken(alloc: Global, current: &mut Vec<u32>, last: u32) -> Result<Bundle, AllocError>
    ensures bundle { IfOk result (λ b. b ≡ current.old.items ++ last ∷ []) }
    ensures current { OnOk result (current.new.items ≡ []) }
{
    if is_empty(current.as_slice()) {
        return Ok(Bundle::of_one(last));
    }
    current.push(last)?;
    Ok(Bundle::from_vec(mem::replace(current, Vec::new(alloc))))
}

fn is_empty(numbers: &[u32]) -> bool
    ensures { result ≡ true → numbers.now ≡ [] }
{
    matches!(numbers, [])
}

// Whether the ray doesn't coincide with the next, or is the last.
fn is_last(rays: &[Ray], i: usize) -> bool
    requires { i < length rays.now }
    ensures { result ≡ ends_bundle rays.now i }
{
    i + 1 == rays.len() || !are_parallel(&rays[i], &rays[i + 1])
}
