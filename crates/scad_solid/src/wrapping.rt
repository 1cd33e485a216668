//! Solids of rings on a way that comes back to its start.
ghost use Rattle.std.specs.Prelude.{◌≡◌, ◌++◌, [], ◌∷◌, OnOk, IfOk, IsTrue};
ghost use Rattle.scad_solid.specs.Solid.{fans};
ghost use Rattle.scad_solid.specs.Stack.{are_alike, rings_in_range};
ghost use Rattle.scad_solid.specs.Wrap.{bands, wrapped};

use crate::ring::Ring;
use crate::stacking::push_band;
use crate::triangle::Triangle;
use crate::triangles::Triangles;
use std::alloc::{AllocError, Global};

/// The solid of rings one behind another, the last of which is followed by the first: bands of quads from
/// each ring to the next.
pub fn wrap(alloc: Global, rings: &[Ring]) -> Result<Triangles, AllocError>
    requires alike { IsTrue (are_alike rings.now) }
    requires in_range { IsTrue (rings_in_range rings.now) }
    ensures { IfOk result (λ t. t ≡ wrapped rings.now) }
{
    Ok(Triangles::from_closed(wrapped(alloc, rings)?))
}

#[tactic(auto, unfolding(crate::specs::Wrap::wrapped))]
fn wrapped(alloc: Global, rings: &[Ring]) -> Result<Vec<Triangle>, AllocError>
    requires { IsTrue (are_alike rings.now) }
    ensures { IfOk result (λ v. v.items ≡ wrapped rings.now) }
{
    let mut triangles = Vec::new(alloc);
    if let [first, rest @ ..] = rings {
        push_round(&mut triangles, first, rest)?;
    }
    Ok(triangles)
}

// The bands from the first ring through the others back to it.
fn push_round(out: &mut Vec<Triangle>, first: &Ring, rings: &[Ring]) -> Result<(), AllocError>
    requires { IsTrue (are_alike (first.now ∷ rings.now)) }
    ensures { OnOk result (out.new.items ≡ out.old.items ++ fans (bands first.now (rings.now ++ first.now ∷ []))) }
{
    let mut upper = first;
    for lower in rings {
        push_band(out, upper.as_slice(), lower.as_slice())?;
        upper = lower;
    }
    push_band(out, upper.as_slice(), first.as_slice())
}
