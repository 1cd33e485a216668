//! Laws of the definitions, each carried by the contract of a function that does nothing.
ghost use Rattle.slice_bundles.specs.KeptOrder.{BundlesKeepOrder};

/// The bundles between two neighbouring heights, ordered at the lower one, keep their order up to the upper one: no
/// bundle comes to the right of a later one, and strictly between the two heights each lies to the left of the later
/// ones.
#[tactic(auto, using(crate::proofs::KeptOrder::bundles_keep_order))]
pub fn bundles_keep_order()
    ensures { BundlesKeepOrder }
{}
