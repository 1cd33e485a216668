//! The bundles that have reached a height, and the edges that start later.

use crate::lower_end::LowerEnd;
use crate::room::Room;
use crate::strand::Strand;
use std::alloc::Global;

/// The bundles at a height, from left to right, kept as it rises: only those are looked at in which an edge ends, that
/// meet others, or beside which an edge starts. After want of memory it isn't used again.
#[derive(Drop)]
pub struct Front {
    pub(crate) alloc: Global,
    // The lower ends of all edges, from low to high, and how many of the edges have begun.
    pub(crate) ends: Vec<LowerEnd>,
    pub(crate) begun: usize,
    pub(crate) strands: Vec<Strand>,
    // The keys of their blocks.
    pub(crate) lows: Vec<i64>,
    pub(crate) room: Room,
}
