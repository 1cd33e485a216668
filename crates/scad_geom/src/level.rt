//! Heights that aren't whole, and the edges of leaves.

use crate::Edge;

/// A directed edge of one leaf of a solid tree. Leaves are numbered from 0.
#[derive(Clone, Copy)]
pub struct LeafEdge {
    pub leaf: u32,
    pub edge: Edge,
}

/// The height `n / d` in micrometres, with `d` above 0.
#[derive(Clone, Copy)]
pub struct Level {
    pub n: i128,
    pub d: i128,
}
