//! Laws of the definitions, each carried by the contract of a function that does nothing.
ghost use Rattle.plan_walls.specs.Rings.{LeftIsWound};
ghost use Rattle.plan_walls.specs.Laws.{WallsStayApart, WallsKeepClear};
ghost use Rattle.plan_walls.specs.Lengths.{WallsHaveLengths};

/// A closed way with a point to the left of each of its sides winds round the point counter-clockwise, hard by it on
/// each side.
pub fn left_is_wound()
    ensures { LeftIsWound }
{}

/// Each point of the walls at a distance keeps the clearance of it from each side of the outlines.
pub fn walls_stay_apart()
    ensures { WallsStayApart }
{}

/// Each point of the walls at a distance from 2 micrometres on keeps the clearance of it from each side of the outlines,
/// and the outlines wind round it.
pub fn walls_keep_clear()
    ensures { WallsKeepClear }
{}

/// Each side of the loops of walls has a length.
pub fn walls_have_lengths()
    ensures { WallsHaveLengths }
{}
