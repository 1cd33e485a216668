//! Laws of the definitions, each carried by the contract of a function that does nothing.
ghost use Rattle.slice_layer.specs.Laws.{OutlinesHoldPoints, OutlinesHoldCentres, OutlinesAreNearBorder};
ghost use Rattle.slice_layer.specs.Within.{OutlinesAreWithin};

/// At every layer the outlines of a tree of closed surfaces wind once round each point that the tree contains by its
/// exact cuts, and not at all round any other, where no point of a cut lies within one micrometre of the point along
/// both axes; so they do at the centres of cells.
pub fn outlines_hold()
    ensures points { OutlinesHoldPoints }
    ensures centres { OutlinesHoldCentres }
{}

/// Each point of each side of a layer's outlines lies less than one micrometre along both axes from a point hard by
/// which the tree's section holds on one side and not on another.
pub fn outlines_are_near_border()
    ensures { OutlinesAreNearBorder }
{}

/// The outlines of a tree of solids are within the limit of points.
pub fn outlines_are_within()
    ensures { OutlinesAreWithin }
{}
