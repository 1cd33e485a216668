//! Why there is no number.

/// Why an operation has no number as its result.
#[derive(Clone, Copy)]
pub enum NumFault {
    /// The rounded result is more than 10^15 millionths in size.
    Range = 1,
    /// The divisor is 0.
    ZeroDivisor = 2,
}
