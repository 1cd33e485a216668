//! What other crates make placed solids of.

pub use crate::extent::extent;
pub use crate::outline::{circle, part_of, rectangle};
pub use crate::placing::push_placed;
pub use crate::prisms::prism;
