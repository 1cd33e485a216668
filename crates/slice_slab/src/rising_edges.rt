//! The edges that meet a height, as it rises.

use slice_bundles::{Bundle, Start};
use std::alloc::Global;

/// The edges that meet a height, and the bundles above it, kept as it rises: only what begins and ends is looked at,
/// and not all edges at each height. After want of memory it isn't used again.
#[derive(Drop)]
pub struct Active {
    pub(crate) alloc: Global,
    // All edges from low to high, by their lower ends, and how many of them have begun.
    pub(crate) starts: Vec<Start>,
    pub(crate) begun: usize,
    pub(crate) live: Vec<u32>,
    pub(crate) bundles: Vec<Bundle>,
}
