//! Where what holds along a line changes.
ghost use Rattle.std.specs.Prelude.{◌≡◌, pos};

/// From a place of a line on, these numbers are added to the winding number and to the number of edges near by.
#[derive(Clone, Copy)]
pub(crate) struct Step {
    pub(crate) at: i128,
    pub(crate) turns: i128,
    pub(crate) near: i128,
}

impl Step {
    pub(crate) fn of_turns(at: i128, turns: i128) -> Step
        ensures { result ≡ record { at = at; turns = turns; near = pos 0 } }
    {
        Step { at, turns, near: 0 }
    }

    pub(crate) fn of_near(at: i128, near: i128) -> Step
        ensures { result ≡ record { at = at; turns = pos 0; near = near } }
    {
        Step { at, turns: 0, near }
    }
}
