//! Set operations over leaves.

/// A tree of set operations over numbered leaves.
#[derive(Drop)]
pub enum Shape {
    /// Holds no point.
    Empty,
    /// Holds the points of one leaf.
    Leaf(u32),
    /// Holds the points that some member holds.
    Union(Vec<Shape>),
    /// Holds the points that all members hold; without members it holds none.
    Inter(Vec<Shape>),
    /// Holds the points of the first that none of the rest holds.
    Diff(Box<Shape>, Vec<Shape>),
}
