//! Laws of the definitions, each carried by the contract of a function that does nothing.
ghost use Rattle.scad_hull.specs.Laws.{FacesAreConvex, HullsClose, RingsAreConvex, RingsAreOne, RingsHold};

/// The ring that points of the plane have as their hull is the convex ring round them: three or more
/// of the points, each a corner, counter-clockwise from the lowest and then leftmost, with all points
/// inside or on it.
#[tactic(auto, using(crate::proofs::Flats::rings_are_convex))]
pub fn rings_are_convex()
    ensures { RingsAreConvex }
{}

/// Points have no other convex ring: where a ring is one round them, and no more than 20,000 of them
/// are distinct, it is their hull.
#[tactic(auto, using(crate::proofs::FlatOne::rings_are_one))]
pub fn rings_are_one()
    ensures { RingsAreOne }
{}

/// The ring that points of the plane have as their hull winds round a point that lies on the line of
/// none of its sides exactly where the point lies to the left of each side.
#[tactic(auto, using(crate::proofs::FlatHolds::rings_hold))]
pub fn rings_hold()
    ensures { RingsHold }
{}

/// The listed faces of points of space are all the convex rings, clockwise as seen from outside, round all points of a
/// plane that has no point outside of it, and nothing else.
#[tactic(auto, using(crate::proofs::FaceList::faces_are_convex))]
pub fn faces_are_convex()
    ensures { FacesAreConvex }
{}

/// The solid that points have as their hull is closed.
#[tactic(auto, using(crate::proofs::Backs::hulls_close))]
pub fn hulls_close()
    ensures { HullsClose }
{}
