//! What each test ends with.
ghost use Rattle.std.specs.Prelude.{◌≡◌, true};

use std::process::Abort;

/// Ends the test with the case's name unless it is so: one call, where `assert!` writes out its message at
/// each place. The name is in quotes, for a source may be empty.
pub fn holds(rt: &impl Abort, is_so: bool, case: &str)
    ensures { is_so ≡ true }
{
    assert!(rt; is_so, "{case:?}");
}

/// The same for the case of this number.
pub fn holds_at(rt: &impl Abort, is_so: bool, case: &str, number: u64) {
    assert!(rt; is_so, "{case}: {number}");
}
