//! Why a border isn't given.

/// Why the pieces of a border were refused.
#[derive(Debug, Drop)]
pub enum BoolFault {
    /// Memory ran out.
    Memory,
    /// This many edges, more than the limit.
    Edges(u64),
    /// This many pairs of edges cross, more than `slice_events` takes.
    Crossings(u64),
}
