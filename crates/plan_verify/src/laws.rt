//! Laws of the definitions, each carried by the contract of a function that does nothing.
ghost use Rattle.plan_verify.specs.Laws.{FilesAreWithin};

/// All points of the outlines that a file says are within the limit of coordinates.
pub fn files_are_within()
    ensures { FilesAreWithin }
{}
