//! The names of a frame behind its first ones, with their values.

use crate::word::Word;
use scad_value::Value;
use std::alloc::{AllocError, Global};
use std::collections::HashMap;
use std::marker::Model;

/// Names with their values, in the order in which they were first set. Where a name stands is found by its hash.
#[derive(Drop)]
pub struct FurtherNames {
    entries: Vec<(Word, Value)>,
    places: HashMap<Vec<u8>, usize>,
}

impl Model for FurtherNames {
    ghost use Rattle.std.specs.Prelude.{ℕ, List};
    ghost use Rattle.scad_value.specs.declared.value.Value.{Value as Held};
    ghost use Rattle.scad_value.specs.contracts.value.Value as held;
    ghost use Rattle.std.specs.Coded.{codes};
    ghost use Rattle.scad_bindings.specs.NamePlaces.{HasPlaces};

    ghost Value = { List (List ℕ × Held) };

    ghost coded = { Prim.hlevel (codes, held.the_row.coded) };

    ghost view = { λ n. n.entries.items };

    ghost invariant = { λ n. HasPlaces (λ e. e.0) (λ k. k.items) n.entries.items n.places };
}

impl FurtherNames {
    ghost use Rattle.std.specs.Prelude.{◌≡◌, [], map, option_map, OnOk, OnErr};
    ghost use Rattle.scad_value.specs.View.{datum_of};
    ghost use Rattle.scad_scope.specs.FrameNames.{is_nil, named};
    ghost use Rattle.scad_scope.specs.Names.{value_of_name, with_name};

    /// No names. They take no memory.
    pub fn new(alloc: Global) -> FurtherNames
        ensures { result ≡ [] }
    {
        FurtherNames {
            entries: Vec::new(alloc),
            places: HashMap::new(alloc),
        }
    }

    /// Sets a name.
    pub fn set(&mut self, alloc: Global, name: &[u8], value: Value) -> Result<(), AllocError>
        ensures named { OnOk result (map named self.new
            ≡ with_name name.now (datum_of value) (map named self.old)) }
        ensures refused { OnErr result (self.new ≡ self.old) }
    {
        if let Some(place) = self.places.get(name) {
            let place = *place;
            self.entries[place].1 = value;
            return Ok(());
        }
        self.entries.reserve(1)?;
        let key = Vec::from_slice(alloc, name)?;
        let word = Word::of(alloc, name)?;
        self.places.insert(key, self.entries.len())?;
        self.entries.push_reserved((word, value));
        Ok(())
    }

    /// The value of a name.
    pub fn get(&self, name: &[u8]) -> Option<&Value>
        ensures { option_map (λ v. datum_of v.now) result ≡ value_of_name name.now (map named self.now) }
    {
        match self.places.get(name) {
            Some(place) => Some(&self.entries[*place].1),
            None => None,
        }
    }

    /// Whether there are no names.
    pub fn is_empty(&self) -> bool
        ensures { result ≡ is_nil (map named self.now) }
    {
        self.entries.is_empty()
    }
}
