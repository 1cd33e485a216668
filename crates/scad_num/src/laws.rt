//! Laws of the definitions, each carried by the contract of a function that does nothing.
ghost use Rattle.scad_num.specs.Laws.{RoundsToNearest, RoundsAwayFromZero, FloorsAndCeilings, RootsAreWhole, LiteralsAreLongest, LiteralsAreRecognised};

/// A rounded quotient is the nearest whole number, a half upwards.
#[tactic(auto, using(crate::proofs::Nearest::rounds_to_nearest))]
pub fn rounds_to_nearest()
    ensures { RoundsToNearest }
{}

/// Where the quotient may be negative, its size is rounded so: a half away from zero.
pub fn rounds_away_from_zero()
    ensures { RoundsAwayFromZero }
{}

/// The floor is the whole number at most 1 below, the ceiling the one at most 1 above.
pub fn floors_and_ceilings()
    ensures { FloorsAndCeilings }
{}

/// The square of a root isn't above the number, that of the next whole number is.
pub fn roots_are_whole()
    ensures { RootsAreWhole }
{}

/// The literal that is cut off in front of bytes is the longest that they begin with.
pub fn literals_are_longest()
    ensures { LiteralsAreLongest }
{}

/// A text is recognised as a literal exactly where it has the form of one.
pub fn literals_are_recognised()
    ensures { LiteralsAreRecognised }
{}
