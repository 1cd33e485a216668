//! Laws of the definitions, each carried by the contract of a function that does nothing.
ghost use Rattle.slice_events.specs.Common.{MeetsSaysMeet, CrossesSaysCross};

/// The test by which levels are found says that two edges that aren't parallel have a common point; the test by which
/// crossings are counted, that they have one that isn't an end of both.
pub fn tests_say_common_points()
    ensures meeting { MeetsSaysMeet }
    ensures crossing { CrossesSaysCross }
{}
