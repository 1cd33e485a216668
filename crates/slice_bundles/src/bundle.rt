//! Edges that coincide between two heights.

ghost use Rattle.std.specs.Prelude.{◌≡◌, ◌∷◌, [], ℕ, List};
ghost use Rattle.slice_bundles.specs.Numbers.{all_of};

use crate::numbers::Numbers;
use std::marker::Model;
use std::slice;

/// The numbers of edges that coincide between two neighbouring heights, ascending.
#[derive(Drop)]
pub struct Bundle {
    numbers: Numbers,
}

impl Model for Bundle {
    ghost Value = { List ℕ };

    ghost view = { λ b. all_of b.numbers };
}

impl Bundle {
    /// The bundle of one edge. It takes no memory.
    pub fn of_one(edge: u32) -> Self
        ensures { result ≡ edge ∷ [] }
    {
        Bundle {
            numbers: Numbers::One(edge),
        }
    }

    /// The bundle of the edges' numbers, without taking memory.
    pub fn from_vec(edges: Vec<u32>) -> Self
        ensures { result ≡ edges.items }
    {
        Bundle {
            numbers: Numbers::Many(edges),
        }
    }

    /// The numbers.
    pub fn as_slice(&self) -> &[u32]
        ensures { result.now ≡ self.now }
    {
        match &self.numbers {
            Numbers::One(edge) => slice::from_ref(edge),
            Numbers::Many(edges) => edges.as_slice(),
        }
    }
}
