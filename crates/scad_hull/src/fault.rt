//! Refusals of hulls.

/// Why there is no answer.
#[derive(Clone, Copy, Debug)]
pub enum HullFault {
    /// So many distinct points, which passes 20,000.
    Points(u64),
    /// Memory ran out.
    Memory,
}
