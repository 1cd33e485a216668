//! Solids under set operations.

use scad_solid::Triangles;

/// A tree of set operations whose leaves are closed surfaces.
#[derive(Drop)]
pub enum Node {
    /// Holds no point.
    Empty,
    /// Holds what the surface bounds.
    Leaf(Triangles),
    /// Holds the points that some member holds.
    Union(Vec<Node>),
    /// Holds the points that all members hold.
    Inter(Vec<Node>),
    /// Holds the points of the first that none of the rest holds.
    Diff(Box<Node>, Vec<Node>),
}
