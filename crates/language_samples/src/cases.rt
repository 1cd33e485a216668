//! What each test ends with.
ghost use Rattle.std.specs.Prelude.{◌≡◌, true};

use std::process::Abort;

/// Ends the test with the case's name unless it holds: one call, where `assert!` writes out its message at each place.
pub(crate) fn expect(rt: &impl Abort, holds: bool, case: &str)
    ensures { holds ≡ true }
{
    assert!(rt; holds, "{case}");
}
