//! Where a piece starts or ends.
ghost use Rattle.scad_geom.specs.Limits.{coordinate_limit};
ghost use Rattle.slice_pieces.specs.Spots.{IsSpotWithin};

use slice_pieces::Spot;

/// Where the piece at a place of a list starts or ends.
#[derive(Clone, Copy)]
pub(crate) struct End {
    pub(crate) spot: Spot,
    pub(crate) place: usize,
    ghost within: { IsSpotWithin coordinate_limit spot },
}
