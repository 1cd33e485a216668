//! Laws of the definitions, each carried by the contract of a function that does nothing.
ghost use Rattle.scad_slice.specs.Laws.{PartsAreThere, PartsAreOne, PartsHold};
ghost use Rattle.scad_slice.specs.Laws.{SlicesAreWhole, PlansAreWhole, ProgramsAreWhole};

/// A tree of solids has a part, whatever is wanted and by whatever settings.
pub fn parts_are_there()
    ensures { PartsAreThere }
{}

/// It has one by settings in range.
pub fn parts_are_one()
    ensures { PartsAreOne }
{}

/// Where no layer passes a budget: at every layer and every cell centre that is clear of the exact cuts of a tree of
/// solids by one micrometre, the outlines wind once round the centre where the tree contains it, and not at all
/// elsewhere.
pub fn parts_hold()
    ensures { PartsHold }
{}

/// Where there are not too many layers and none passes a budget, both commands write the text of all layers, and
/// `plan` writes the printing program of all plans.
pub fn texts_are_whole()
    ensures slice { SlicesAreWhole }
    ensures outlines { PlansAreWhole }
    ensures program { ProgramsAreWhole }
{}
