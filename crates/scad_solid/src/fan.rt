//! The triangles of a face.
ghost use Rattle.std.specs.Prelude.{◌≡◌, ◌++◌, OnOk};
ghost use Rattle.scad_solid.specs.Solid.{fan};

use crate::triangle::Triangle;
use scad_geom::Pt3;
use std::alloc::AllocError;

/// Adds the fan of a face from its first point: a triangle at each point from the third on.
pub fn push_fan(out: &mut Vec<Triangle>, face: &[Pt3]) -> Result<(), AllocError>
    ensures { OnOk result (out.new.items ≡ out.old.items ++ fan face.now) }
{
    let [first, second, rest @ ..] = face else {
        return Ok(());
    };
    let mut b = *second;
    for c in rest {
        out.push(Triangle {
            a: *first,
            b,
            c: *c,
        })?;
        b = *c;
    }
    Ok(())
}
