//! Laws of the definitions, each carried by the contract of a function that does nothing.
ghost use Rattle.winding_laws.specs.Moves.{MovesKeepBalance, MovesKeepWinding};
ghost use Rattle.winding_laws.specs.RoundedEnds.{RoundingMovesByHalves, RoundingKeepsBalance, RoundingKeepsWinding};
ghost use Rattle.winding_laws.specs.RoundedEnds.{LengthsKeepBalance, LengthsKeepWinding};
ghost use Rattle.winding_laws.specs.Joining.{OrderKeepsBalance, OrderKeepsWinding};
ghost use Rattle.winding_laws.specs.Joining.{JoiningKeepsBalance, JoiningKeepsWinding};
ghost use Rattle.winding_laws.specs.Joining.{CancellingKeepsBalance, CancellingKeepsWinding};
ghost use Rattle.winding_laws.specs.Parts.{BetweenIsOn, PartsAreOn, PartsAreAll};
ghost use Rattle.winding_laws.specs.Parts.{PartsAreFar, PartsAreClear, MovesStayFar, MovesStayClear};
ghost use Rattle.winding_laws.specs.OneWinding.{RegionsHaveOneWinding, SquaresHaveOneWinding, FormsWindAlike};
ghost use Rattle.winding_laws.specs.Approach.{PointsFollow, LinesAreAll, AmidIsAnywhere, AmidIsBetween};

/// Moving the ends of a balanced list, each to a point to which it is near, keeps the list balanced, and its
/// winding hard by each point to which no point of a segment is near.
pub fn moves_keep_winding()
    ensures balance { MovesKeepBalance }
    ensures winding { MovesKeepWinding }
{}

/// Rounding moves a point by at most one half along each axis. So rounding the ends of a balanced list keeps it
/// balanced, and its winding hard by each point of which no point of a segment lies within one half along both
/// axes.
pub fn rounding_keeps_winding()
    ensures halves { RoundingMovesByHalves }
    ensures balance { RoundingKeepsBalance }
    ensures winding { RoundingKeepsWinding }
{}

/// Edges whose ends coincide may be left out.
pub fn lengths_keep_winding()
    ensures balance { LengthsKeepBalance }
    ensures winding { LengthsKeepWinding }
{}

/// The order of segments matters neither for balance nor for winding.
pub fn order_keeps_winding()
    ensures balance { OrderKeepsBalance }
    ensures winding { OrderKeepsWinding }
{}

/// Two segments, the second starting where the first ends, may be joined into one; where they lie on one line it
/// winds as the two hard by each point.
pub fn joining_keeps_winding()
    ensures balance { JoiningKeepsBalance }
    ensures winding { JoiningKeepsWinding }
{}

/// Edges and their opposites may be left out together.
pub fn cancelling_keeps_winding()
    ensures balance { CancellingKeepsBalance }
    ensures winding { CancellingKeepsWinding }
{}

/// A point on the line of a segment, strictly between its ends, is a point of the segment. The points of its parts
/// are its own.
pub fn points_of_parts()
    ensures between { BetweenIsOn }
    ensures on { PartsAreOn }
    ensures all { PartsAreAll }
{}

/// What is far from a segment is far from its parts, and what is far from both parts of a segment that is cut at a
/// point is far from the whole.
pub fn parts_are_far()
    ensures far { PartsAreFar }
    ensures clear { PartsAreClear }
{}

/// Where the ends of a segment are moved by less than it is far from a point, it stays as far as is left.
pub fn moves_stay_far()
    ensures far { MovesStayFar }
    ensures clear { MovesStayClear }
{}

/// Where the ends of a segment are moved within a region, each of its points is near to a point of the segment as it
/// was.
pub fn points_follow()
    ensures { PointsFollow }
{}

/// As near as wanted to each point of a segment lies one that isn't an end; where the segment has a length, such a
/// point lies on its line, strictly between the ends. Of three points on one line the way from the first to the last
/// goes over points of the ways to and from the middle one.
pub fn points_are_approached()
    ensures anywhere { AmidIsAnywhere }
    ensures between { AmidIsBetween }
    ensures lines { LinesAreAll }
{}

/// Round all points near to a centre a balanced list has one winding number, where no point of it is near to the
/// centre; so it has one throughout a square that no segment meets.
pub fn squares_have_one_winding()
    ensures regions { RegionsHaveOneWinding }
    ensures squares { SquaresHaveOneWinding }
{}

/// Round a point that is far from a balanced list its winding number is one, hard by the point on each side.
pub fn forms_wind_alike()
    ensures { FormsWindAlike }
{}
