//! The planes of layers.
ghost use Rattle.std.specs.Prelude.{◌≡◌};
ghost use Rattle.scad_solid.specs.Cut.{plane_of, is_above, is_below, falls, rises};

use scad_solid::Side;

/// Twice the height of the plane of a layer, which is an odd number.
pub(crate) fn plane_of(layer: u32, h: u32) -> i128
    ensures { result ≡ plane_of layer h }
{
    let middle = u64::from(layer) * u64::from(h) + u64::from(h / 2);
    2 * i128::from(middle) + 1
}

/// Whether the side falls through the plane.
pub(crate) fn falls(side: &Side, plane: i128) -> bool
    ensures { result ≡ falls plane side.now }
{
    is_above(side.from.z, plane) && is_below(side.to.z, plane)
}

/// Whether the side rises through the plane.
pub(crate) fn rises(side: &Side, plane: i128) -> bool
    ensures { result ≡ rises plane side.now }
{
    is_below(side.from.z, plane) && is_above(side.to.z, plane)
}

fn is_above(z: i32, plane: i128) -> bool
    ensures { result ≡ is_above plane z }
{
    plane < 2 * z as i128
}

fn is_below(z: i32, plane: i128) -> bool
    ensures { result ≡ is_below plane z }
{
    (2 * z as i128) < plane
}
