//! Laws of the definitions, each carried by the contract of a function that does nothing.
ghost use Rattle.support_laws.specs.Laws.{CoversAreOverhung, RunsAreSupports};
ghost use Rattle.support_laws.specs.Laws.{OverhungAreThere, OverhungAreOne, SupportsAreThere, SupportsAreOne};
ghost use Rattle.support_laws.specs.Apart.{SupportsStandApart, SupportsHaveLengths, SupportsLieWithin};

/// What `covers` gives of the spans of all layers is what stands below higher layers, and what `supports` gives over it
/// is a layer's support runs.
pub fn runs_are_supports()
    ensures covers { CoversAreOverhung }
    ensures supports { RunsAreSupports }
{}

/// Layers have stretches below higher ones, and one list of them for each.
pub fn overhung_are_one()
    ensures there { OverhungAreThere }
    ensures one { OverhungAreOne }
{}

/// A layer has support runs, and one list of them.
pub fn supports_are_one()
    ensures there { SupportsAreThere }
    ensures one { SupportsAreOne }
{}

/// Each move along support runs keeps apart from its layer's outlines, has a length, and lies no farther out than what
/// it stands below.
pub fn supports_stand_apart()
    ensures apart { SupportsStandApart }
    ensures lengths { SupportsHaveLengths }
    ensures within { SupportsLieWithin }
{}
