//! Laws of the definitions, each carried by the contract of a function that does nothing.
ghost use Rattle.slice_loops.specs.Laws.{SidesAreEdges, LoopsAreOne, OutlinesAreOne, OutlinesKeepWinding};
ghost use Rattle.slice_loops.specs.Lengths.{SidesHaveLengths};

/// The sides of the loops that are drawn from edges are these edges in another order.
#[tactic(auto, using(crate::proofs::LoopSides::sides_are_edges))]
pub fn sides_are_edges()
    ensures { SidesAreEdges }
{}

/// From the same edges, in whatever order, the same loops are drawn.
pub fn loops_are_one()
    ensures { LoopsAreOne }
{}

/// From the same edges, in whatever order, the same outlines are made.
pub fn outlines_are_one()
    ensures { OutlinesAreOne }
{}

/// Outlines wind round each point, and hard by it above or below and right or left, as the edges that they are made of.
#[tactic(auto, using(crate::proofs::Winding::outlines_keep_winding))]
pub fn outlines_keep_winding()
    ensures { OutlinesKeepWinding }
{}

/// Where each edge has a length, so has each side of the outlines that they make.
pub fn sides_have_lengths()
    ensures { SidesHaveLengths }
{}
