//! Laws of what expressions give.
ghost use Rattle.scad_expr.specs.Laws.{StepsRise, TurnsDontEnd};

/// An expression never takes steps back, and never passes their limit.
pub fn steps_rise()
    ensures { StepsRise }
{}

/// In a loop with start, test and step the count of turns never ends: each turn takes a step, so the
/// steps pass their limit before.
pub fn turns_dont_end()
    ensures { TurnsDontEnd }
{}
