//! Faces of a polyhedron.
ghost use Rattle.std.specs.Prelude.{◌≡◌, ℕ, List};

use std::marker::Model;

/// A face: the numbers of its points in order, clockwise as seen from outside.
#[derive(Drop)]
pub struct Face {
    indices: Vec<u32>,
}

impl Model for Face {
    ghost Value = { List ℕ };

    ghost view = { λ f. f.indices.items };
}

impl Face {
    /// The face of the indices, without taking memory.
    pub fn from_vec(indices: Vec<u32>) -> Self
        ensures { result ≡ indices.items }
    {
        Face { indices }
    }

    /// The indices.
    pub fn as_slice(&self) -> &[u32]
        ensures { result.now ≡ self.now }
    {
        self.indices.as_slice()
    }
}
