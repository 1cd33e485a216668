//! Laws of the definitions, each carried by the contract of a function that does nothing.
ghost use Rattle.outline_laws.specs.Outlines.{PiecesAreSame, OutlinesAreOne, AlikeHaveOneOutlines};
ghost use Rattle.outline_laws.specs.Layers.{LayersHaveOneOutlines, LayersHaveOutlines};

/// The pieces of a border are the same one by one, over whatever divisors its levels are written: of one name, from one
/// point to one point.
pub fn pieces_are_same()
    ensures { PiecesAreSame }
{}

/// A shape over edges within the limit of coordinates has one list of outlines, and two shapes that hold alike have the
/// same.
pub fn outlines_are_one()
    ensures one { OutlinesAreOne }
    ensures alike { AlikeHaveOneOutlines }
{}

/// A tree of solids has one list of outlines at a layer, whichever shape stands for it.
pub fn layers_are_one()
    ensures { LayersHaveOneOutlines }
{}

/// A tree of solids has outlines at each layer.
pub fn layers_have_outlines()
    ensures { LayersHaveOutlines }
{}
