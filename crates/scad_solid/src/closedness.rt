//! Whether a surface is closed.
ghost use Rattle.std.specs.Prelude.{◌≡◌, map, IfOk};
ghost use Rattle.scad_solid.specs.Side.{reversed};
ghost use Rattle.scad_solid.specs.Surface.{sides, is_closed};

use crate::side::Side;
use crate::triangle::Triangle;
use std::alloc::{AllocError, Global};

/// Whether each directed side occurs as often as its reverse. Both lists of sides are sorted, so it
/// takes the time of a sort.
pub(crate) fn is_closed(alloc: Global, triangles: &[Triangle]) -> Result<bool, AllocError>
    ensures { IfOk result (λ closed. closed ≡ is_closed triangles.now) }
{
    let mut forwards = sides(alloc, triangles)?;
    let mut backwards = reversed(alloc, forwards.as_slice())?;
    forwards.sort_unstable();
    backwards.sort_unstable();
    Ok(forwards == backwards)
}

fn sides(alloc: Global, triangles: &[Triangle]) -> Result<Vec<Side>, AllocError>
    ensures { IfOk result (λ v. v.items ≡ sides triangles.now) }
{
    let mut sides = Vec::new(alloc);
    for triangle in triangles {
        sides.extend_from_slice(&triangle.sides())?;
    }
    Ok(sides)
}

fn reversed(alloc: Global, sides: &[Side]) -> Result<Vec<Side>, AllocError>
    ensures { IfOk result (λ v. v.items ≡ map reversed sides.now) }
{
    sides.iter().map(|side| side.reversed()).collect(alloc)
}
