//! Laws of what a machine holds.
ghost use Rattle.std.specs.Prelude.{◌≡◌};
ghost use Rattle.scad_machine.specs.declared.machine.TheConstants.{DEPTH_LIMIT, NESTING_LIMIT, STEP_LIMIT};
ghost use Rattle.scad_machine.specs.State.{depth_limit, nesting_limit, step_limit};

/// The greatest numbers of steps, of levels and of vectors in one another.
pub fn limits()
    ensures steps { STEP_LIMIT ≡ step_limit }
    ensures depth { DEPTH_LIMIT ≡ depth_limit }
    ensures nesting { NESTING_LIMIT ≡ nesting_limit }
{}
