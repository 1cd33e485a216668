//! Laws of the definitions, each carried by the contract of a function that does nothing.
ghost use Rattle.std.specs.Prelude.{◌≡◌};
ghost use Rattle.scad_geom.specs.declared.point.TheConstants.{COORDINATE_LIMIT};
ghost use Rattle.scad_geom.specs.declared.point3.TheConstants.{POINT_LIMIT};
ghost use Rattle.scad_geom.specs.Limits.{point_limit, coordinate_limit};
ghost use Rattle.scad_geom.specs.Square.{SquareWindsOnce};

/// The outline of a square with a corner at the origin, counter-clockwise, winds once round each
/// cell centre strictly inside the square, and not at all round any other.
#[tactic(auto, using(crate::proofs::Square::square_winds_once))]
pub fn square_winds_once()
    ensures { SquareWindsOnce }
{}

/// The greatest sizes of coordinates.
pub fn limits()
    ensures point { POINT_LIMIT ≡ point_limit }
    ensures coordinate { COORDINATE_LIMIT ≡ coordinate_limit }
{}
