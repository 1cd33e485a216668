//! A bundle on the front.

use slice_bundles::Bundle;

/// A bundle and its wake-up key: at a height below the key none of its edges ends and it doesn't meet the next bundle.
#[derive(Drop)]
pub(crate) struct Strand {
    pub(crate) bundle: Bundle,
    pub(crate) wake: i64,
}
