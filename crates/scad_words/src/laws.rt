//! Laws of the definitions, each carried by the contract of a function that does nothing.
ghost use Rattle.scad_words.specs.Keys.{KeysAscend, LeastFaultsAreTold};

/// The table that a settings text is has its keys in ascending byte order.
pub fn keys_ascend()
    ensures { KeysAscend }
{}

/// Of a settings text that is a table the fault of the least key in byte order is told that has one, and a text is
/// accepted only where no key has one.
pub fn least_faults_are_told()
    ensures { LeastFaultsAreTold }
{}
