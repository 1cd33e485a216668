//! Solids of rings that lie one over another.
ghost use Rattle.std.specs.Prelude.{◌≡◌, ◌<◌, ◌++◌, [], ◌∷◌, length, reverse, OnOk, IfOk, IsTrue};
ghost use Rattle.scad_solid.specs.Solid.{fan, fans};
ghost use Rattle.scad_solid.specs.Stack.{band, faces_below, stacked, are_alike, rings_in_range};

use crate::fan::push_fan;
use crate::ring::Ring;
use crate::triangle::Triangle;
use crate::triangles::Triangles;
use scad_geom::Pt3;
use std::alloc::{AllocError, Global};

/// The solid of rings, the top one first: the top ring from its last point to its first, bands of
/// quads downwards between neighbouring rings, the bottom ring from its first point to its last.
pub fn stack(alloc: Global, rings: &[Ring]) -> Result<Triangles, AllocError>
    requires alike { IsTrue (are_alike rings.now) }
    requires in_range { IsTrue (rings_in_range rings.now) }
    ensures { IfOk result (λ t. t ≡ stacked rings.now) }
{
    Ok(Triangles::from_closed(stacked(alloc, rings)?))
}

#[tactic(auto, unfolding(crate::specs::Stack::stacked))]
fn stacked(alloc: Global, rings: &[Ring]) -> Result<Vec<Triangle>, AllocError>
    requires { IsTrue (are_alike rings.now) }
    ensures { IfOk result (λ v. v.items ≡ stacked rings.now) }
{
    let mut triangles = Vec::new(alloc);
    if let [top, rest @ ..] = rings {
        push_turned(alloc, &mut triangles, top.as_slice())?;
        push_below(&mut triangles, top, rest)?;
    }
    Ok(triangles)
}

// The face of the ring taken from its last point to its first.
fn push_turned(alloc: Global, out: &mut Vec<Triangle>, ring: &[Pt3]) -> Result<(), AllocError>
    ensures { OnOk result (out.new.items ≡ out.old.items ++ fan (reverse ring.now)) }
{
    let mut turned = Vec::from_slice(alloc, ring)?;
    turned.reverse();
    push_fan(out, turned.as_slice())
}

// The bands below the ring, and the last ring.
fn push_below(out: &mut Vec<Triangle>, top: &Ring, rings: &[Ring]) -> Result<(), AllocError>
    requires { IsTrue (are_alike (top.now ∷ rings.now)) }
    ensures { OnOk result (out.new.items ≡ out.old.items ++ fans (faces_below top.now rings.now)) }
{
    let mut upper = top;
    for lower in rings {
        push_band(out, upper.as_slice(), lower.as_slice())?;
        upper = lower;
    }
    push_fan(out, upper.as_slice())
}

/// The quads between a ring and the one below it.
pub(crate) fn push_band(
    out: &mut Vec<Triangle>,
    upper: &[Pt3],
    lower: &[Pt3],
) -> Result<(), AllocError>
    requires { length upper.now ≡ length lower.now }
    ensures { OnOk result (out.new.items ≡ out.old.items ++ fans (band upper.now lower.now)) }
{
    if upper.is_empty() {
        return Ok(());
    }
    let mut a = upper[0];
    let mut b = lower[0];
    for j in 1..upper.len() {
        push_quad(out, a, upper[j], lower[j], b)?;
        a = upper[j];
        b = lower[j];
    }
    push_quad(out, a, upper[0], lower[0], b)
}

fn push_quad(out: &mut Vec<Triangle>, p: Pt3, q: Pt3, r: Pt3, s: Pt3) -> Result<(), AllocError>
    ensures { OnOk result (out.new.items ≡ out.old.items ++ fan (p ∷ q ∷ r ∷ s ∷ [])) }
{
    out.push(Triangle { a: p, b: q, c: r })?;
    out.push(Triangle { a: p, b: r, c: s })?;
    Ok(())
}
