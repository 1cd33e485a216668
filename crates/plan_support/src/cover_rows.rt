//! Of each layer the stretches that lie below higher layers.
ghost use Rattle.std.specs.Prelude.{◌≡◌, ◌<◌, [], List, length, slice_index_or};
ghost use Rattle.plan_support.specs.Rows.{Row};

use crate::rows::Rows;
use std::marker::Model;

/// Of each layer the stretches that lie below higher layers.
#[derive(Drop)]
pub struct Covers {
    layers: Vec<Rows>,
}

impl Model for Covers {
    ghost use Rattle.std.specs.Prelude.{List};
    ghost use Rattle.plan_support.specs.Rows.{Row};

    ghost Value = { List (List Row) };

    ghost view = { λ c. c.layers.items };
}

impl Covers {
    pub(crate) fn of_layers(layers: Vec<Rows>) -> Covers
        ensures { result ≡ layers.items }
    {
        Covers { layers }
    }

    /// Those of a layer.
    pub fn at(&self, layer: u32) -> &Rows
        requires { layer < length self.now }
        ensures { result.now ≡ slice_index_or self.now layer [] }
    {
        &self.layers[layer as usize]
    }
}
