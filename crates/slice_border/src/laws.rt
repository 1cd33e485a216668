//! Laws of the definitions, each carried by the contract of a function that does nothing.
ghost use Rattle.slice_border.specs.Laws.{PiecesWindOnce};
ghost use Rattle.slice_border.specs.Ends.{HeightsHaveOneLevel};
ghost use Rattle.slice_border.specs.Within.{SpotsAreWithin};
ghost use Rattle.slice_border.specs.PieceNames.{PiecesAreNamed};
ghost use Rattle.slice_border.specs.OnEdges.{PiecesLieOnEdges};
ghost use Rattle.slice_border.specs.Balance.{BordersAreBalanced};
ghost use Rattle.slice_border.specs.Cover.{StretchesAreCovered};
ghost use Rattle.slice_border.specs.BorderPoints.{PiecesAreBorder};
ghost use Rattle.slice_border.specs.NothingOpen.{MadeAreOne};
ghost use Rattle.slice_border.specs.Membership.{OutlinesHoldPoints, OutlinesHoldCentres};
ghost use Rattle.slice_border.specs.NearBorder.{OutlinesAreNearBorder};
ghost use Rattle.slice_border.specs.Centre.{CentresAreWoundOnce, CentresAreHeld};

/// The pieces of a border wind once round each point that the shape holds, hard by the point on each
/// side, and round no other point.
pub fn pieces_wind_once()
    ensures { PiecesWindOnce }
{}

/// Ends of the pieces of a border that are equal in height have the same level, over the same divisor.
pub fn heights_have_one_level()
    ensures { HeightsHaveOneLevel }
{}

/// Where the edges of a border and its levels are within a limit above 0, so are the ends of its pieces.
pub fn spots_are_within()
    ensures { SpotsAreWithin }
{}

/// The pieces of a border are named by the numbers of its edges: none is empty, each lies along the edge of its name, and
/// those of one name don't overlap.
pub fn pieces_are_named()
    ensures { PiecesAreNamed }
{}

/// Both ends of each piece of a border are points of the edge that it is named by.
pub fn pieces_lie_on_edges()
    ensures { PiecesLieOnEdges }
{}

/// Round each cell centre that a shape holds the pieces of its border wind once, and round no other, in
/// plain winding numbers of the leaves' edges.
pub fn centres_are_wound_once()
    ensures wound { CentresAreWoundOnce }
    ensures held { CentresAreHeld }
{}

/// Where the edges of each leaf are balanced, as many pieces of a border start at each point as end there.
pub fn borders_are_balanced()
    ensures { BordersAreBalanced }
{}

/// Where the edges of each leaf are balanced, the values just above and just below a stretch between neighbouring
/// stops of a level differ only where a flat edge covers it.
pub fn stretches_are_covered()
    ensures { StretchesAreCovered }
{}

/// Each point of a piece of a border but its ends is a border point: hard by it the shape holds on one side and not on
/// another.
pub fn pieces_are_border()
    ensures { PiecesAreBorder }
{}

/// Named pieces that don't overlap make one list of outlines.
pub fn made_are_one()
    ensures { MadeAreOne }
{}

/// Where the edges of each leaf are balanced, the outlines of a shape wind once round each point that is clear of the
/// edges by one half and that the shape holds, hard by it on each side, and not at all round any other such point; so
/// they do at cell centres, in plain winding numbers.
pub fn outlines_hold()
    ensures points { OutlinesHoldPoints }
    ensures centres { OutlinesHoldCentres }
{}

/// Each point of each side of a shape's outlines lies less than one micrometre along both axes from a border point.
pub fn outlines_are_near_border()
    ensures { OutlinesAreNearBorder }
{}
