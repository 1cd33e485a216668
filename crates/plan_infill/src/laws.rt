//! Laws of the definitions, each carried by the contract of a function that does nothing.
ghost use Rattle.plan_infill.specs.There.{RunsAreThere};
ghost use Rattle.plan_infill.specs.Lengths.{RunsHaveLengths};

/// Each line has its runs, whatever the outlines, the distance and the least length.
pub fn runs_are_there()
    ensures { RunsAreThere }
{}

/// The ends of a run differ where it has to have some length.
pub fn runs_have_lengths()
    ensures { RunsHaveLengths }
{}
