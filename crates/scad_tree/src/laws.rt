//! Laws of the definitions, each carried by the contract of a function that does nothing.
ghost use Rattle.scad_tree.specs.Laws.{OperationsHold, ShapesHold, LayersHold};

/// A union, an intersection and a difference in normal form hold exactly the points that the set
/// operations of their members say.
pub fn operations_hold()
    ensures { OperationsHold }
{}

/// The shape that numbers a tree's leaves holds what the tree holds; the leaves are numbered from 0 in tree
/// order, each once, and each leaf of a tree in normal form has a triangle.
pub fn shapes_hold()
    ensures { ShapesHold }
{}

/// The layers whose plane lies below a tree's top are those below their count, and from that number on the
/// tree contains no point.
pub fn layers_hold()
    ensures { LayersHold }
{}
