//! Laws of the definitions, each carried by the contract of a function that does nothing.
ghost use Rattle.plan_layer.specs.Clearance.{RunsKeepClear, PlansKeepClear};
ghost use Rattle.plan_layer.specs.Lengths.{PlansHaveLengths};
ghost use Rattle.plan_layer.specs.There.{WallsAreThere, PlansAreThere, PlansAreDecided};
ghost use Rattle.plan_layer.specs.One.{PlansAreOne, RefusalsAreOne, AcceptedIsNotRefused};

use plan_walls::laws::walls_keep_clear;

/// Each exact point of a run of infill keeps the clearance of its depth from each side of the outlines, and they wind
/// round it.
pub fn runs_keep_clear()
    ensures { RunsKeepClear }
{}

/// Each exact point of each move of a plan keeps the clearance of half the width of a line from each side of the
/// outlines, and they wind round it.
pub fn plans_keep_clear()
    ensures { PlansKeepClear }
{
    walls_keep_clear();
}

/// Each move of a plan has a length.
pub fn plans_have_lengths()
    ensures { PlansHaveLengths }
{}

/// A layer has one plan over its outlines.
pub fn plans_are_one()
    ensures { PlansAreOne }
{}

/// Outlines have walls at each distance, and a layer has a plan over its outlines.
pub fn plans_are_there()
    ensures walls { WallsAreThere }
    ensures plans { PlansAreThere }
{}

/// A layer has a plan that passes no limit, or a fault by which it is refused.
pub fn plans_are_decided()
    ensures { PlansAreDecided }
{}

/// A layer is refused by one fault, want of memory aside, and by none where it has a plan that passes no limit.
pub fn answers_are_one()
    ensures refusals { RefusalsAreOne }
    ensures either { AcceptedIsNotRefused }
{}
