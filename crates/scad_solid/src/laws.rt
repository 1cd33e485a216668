//! Laws of the definitions, each carried by the contract of a function that does nothing.
ghost use Rattle.scad_solid.specs.Laws.{PrismsHold, BoxesHold, NothingAbove};

/// A prism over any ring contains a point at a layer exactly where the plane lies strictly between its
/// two ends and the ring winds round the point.
#[tactic(auto, using(crate::proofs::Holds::prisms_hold))]
pub fn prisms_hold()
    ensures { PrismsHold }
{}

/// An upright box contains a cell centre at a layer exactly where each of its three coordinates lies
/// strictly between those of two opposite corners.
#[tactic(auto, using(crate::proofs::Holds::boxes_hold))]
pub fn boxes_hold()
    ensures { BoxesHold }
{}

/// A surface contains nothing at a plane that lies at or above its highest corner.
#[tactic(auto, using(crate::proofs::Above::nothing_above))]
pub fn nothing_above()
    ensures { NothingAbove }
{}
