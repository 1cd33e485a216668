//! Laws of the definitions, each carried by the contract of a function that does nothing.
ghost use Rattle.scad_shapes.specs.Laws.{CubesHold, PlacedPrismsHold, CylindersHold};

/// Under a diagonal matrix a cube contains a cell centre at a layer exactly where each of its three
/// coordinates lies strictly between those of two opposite placed corners.
#[tactic(auto, using(crate::proofs::Holds::cubes_hold))]
pub fn cubes_hold()
    ensures { CubesHold }
{}

/// Under an upright matrix the prism over any outline contains a point at a layer exactly where the plane
/// lies strictly between its placed ends and the placed outline winds round the point.
#[tactic(auto, using(crate::proofs::Holds::placed_prisms_hold))]
pub fn placed_prisms_hold()
    ensures { PlacedPrismsHold }
{}

/// So does a cylinder of equal radii.
#[tactic(auto, using(crate::proofs::Holds::cylinders_hold))]
pub fn cylinders_hold()
    ensures { CylindersHold }
{}
