//! Rings of corners by chains that turn to the left.
ghost use Rattle.std.specs.Prelude.{◌≡◌, [], reverse, IfOk};
ghost use Rattle.scad_hull.specs.Chain.{bent, led, half, ring_round};

use crate::plane::Plane;
use std::alloc::{AllocError, Global};

/// The ring round points in order: the chain through them, and the chain back.
pub(crate) fn ring_round<P: Copy, V: Plane<P>>(
    alloc: Global,
    plane: &V,
    points: &[P],
) -> Result<Vec<P>, AllocError>
    ensures { IfOk result (λ v. v.items ≡ ring_round (V.left plane.now) points.now) }
{
    let mut turned = Vec::from_slice(alloc, points)?;
    turned.reverse();
    let mut ring = half(alloc, plane, points)?;
    let back = half(alloc, plane, turned.as_slice())?;
    ring.extend_from_slice(back.as_slice())?;
    Ok(ring)
}

// The chain without its last corner.
#[tactic(auto, using(crate::proofs::Tops::all_but_last))]
fn half<P: Copy, V: Plane<P>>(alloc: Global, plane: &V, points: &[P]) -> Result<Vec<P>, AllocError>
    ensures { IfOk result (λ v. v.items ≡ half (V.left plane.now) points.now) }
{
    let mut stack = chain(alloc, plane, points)?;
    stack.pop();
    Ok(stack)
}

// The chain through the points, one after another.
fn chain<P: Copy, V: Plane<P>>(alloc: Global, plane: &V, points: &[P]) -> Result<Vec<P>, AllocError>
    ensures { IfOk result (λ v. reverse v.items ≡ led (V.left plane.now) [] points.now) }
{
    let mut stack = Vec::new(alloc);
    'points: for p in points {
        bend(plane, &mut stack, p);
        stack.push(*p)?;
    }
    Ok(stack)
}

// Takes the points off at which the way on to p doesn't turn to the left.
fn bend<P: Copy, V: Plane<P>>(plane: &V, stack: &mut Vec<P>, p: &P)
    ensures { reverse stack.new.items ≡ bent (V.left plane.now) p.now (reverse stack.old.items) }
{
    'tops: while stack.len() >= 2 {
        let b = stack[stack.len() - 1];
        let a = stack[stack.len() - 2];
        if plane.turns_left(&a, &b, p) {
            break;
        }
        stack.pop();
    }
}
