//! Laws of the definitions, each carried by the contract of a function that does nothing.
ghost use Rattle.slice_pieces.specs.Naming.{PiecesGoOn};
ghost use Rattle.slice_pieces.specs.Laws.{MergedAreOne, CancelledAreOne};

/// Two pieces along one edge that don't overlap, the first ending where the second starts, go on in one direction: their
/// common end lies inside the way from the first one's start to the second one's end.
pub fn pieces_go_on()
    ensures { PiecesGoOn }
{}

/// Named pieces that don't overlap have one list of merged pieces, in whatever order.
pub fn merged_are_one()
    ensures { MergedAreOne }
{}

/// Of the same edges, in whatever order, the same are left where opposite ones cancel.
pub fn cancelled_are_one()
    ensures { CancelledAreOne }
{}
