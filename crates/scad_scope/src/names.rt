//! The names that a frame can hold.

use std::alloc::{AllocError, Global};
use std::collections::HashMap;
use std::marker::Model;

/// The names that one frame can hold, each once, seen by contracts as a list. The place of a name is found by its hash.
#[derive(Drop)]
pub struct Names {
    alloc: Global,
    words: Vec<Vec<u8>>,
    places: HashMap<Vec<u8>, usize>,
}

impl Model for Names {
    ghost use Rattle.std.specs.Prelude.{map};
    ghost use Rattle.scad_scope.specs.Listing.{Listing};
    ghost use Rattle.scad_bindings.specs.NamePlaces.{HasPlaces};

    ghost Value = { Listing };

    ghost view = { λ n. map (λ w. w.items) n.words.items };

    ghost invariant = { λ n. HasPlaces (λ w. w.items) (λ k. k.items) n.words.items n.places };
}

impl Names {
    ghost use Rattle.std.specs.Prelude.{◌≡◌, [], OnOk, OnErr};
    ghost use Rattle.scad_scope.specs.Listing.{place_of, with_listed};

    /// No names. It takes no memory.
    pub fn new(alloc: Global) -> Names
        ensures { result ≡ [] }
    {
        Names {
            alloc,
            words: Vec::new(alloc),
            places: HashMap::new(alloc),
        }
    }

    /// Lists a name last, where it isn't listed.
    pub fn add(&mut self, name: &[u8]) -> Result<(), AllocError>
        ensures listed { OnOk result (self.new ≡ with_listed name.now self.old) }
        ensures refused { OnErr result (self.new ≡ self.old) }
    {
        if self.places.contains_key(name) {
            return Ok(());
        }
        self.words.reserve(1)?;
        let word = Vec::from_slice(self.alloc, name)?;
        let key = Vec::from_slice(self.alloc, name)?;
        self.places.insert(key, self.words.len())?;
        self.words.push_reserved(word);
        Ok(())
    }

    /// The place of a name.
    pub fn place(&self, name: &[u8]) -> Option<usize>
        ensures { result ≡ place_of name.now self.now }
    {
        match self.places.get(name) {
            Some(place) => Some(*place),
            None => None,
        }
    }
}
