//! The sides of outlines, as a list.
ghost use Rattle.std.specs.Prelude.{◌≡◌, ◌++◌, flat_map, IfOk, OnOk};
ghost use Rattle.scad_geom.specs.Loop.{sides, path};

use scad_geom::{Edge, Loop, Pt};
use std::alloc::{AllocError, Global};

/// The sides of outlines: outline by outline, from each vertex to the next and from the last to the first.
pub fn sides(alloc: Global, outlines: &[Loop]) -> Result<Vec<Edge>, AllocError>
    ensures { IfOk result (λ v. v.items ≡ flat_map sides outlines.now) }
{
    let mut out = Vec::new(alloc);
    'outlines: for outline in outlines {
        push_sides(&mut out, outline.as_slice())?;
    }
    Ok(out)
}

fn push_sides(out: &mut Vec<Edge>, points: &[Pt]) -> Result<(), AllocError>
    ensures { OnOk result (out.new.items ≡ out.old.items ++ sides points.now) }
{
    match points {
        [] => Ok(()),
        [first, rest @ ..] => push_path(out, *first, rest, *first),
    }
}

// The edges from a point through the next points to a last one.
fn push_path(out: &mut Vec<Edge>, first: Pt, rest: &[Pt], last: Pt) -> Result<(), AllocError>
    ensures { OnOk result (out.new.items ≡ out.old.items ++ path first rest.now last) }
{
    let mut at = first;
    'points: for next in rest {
        out.push(Edge { a: at, b: *next })?;
        at = *next;
    }
    out.push(Edge { a: at, b: last })?;
    Ok(())
}
