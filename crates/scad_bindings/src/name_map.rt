//! Values by names that are lent, in the order in which the names first came.

use std::alloc::{AllocError, Global};
use std::collections::HashMap;
use std::marker::Model;

/// Names that are lent, each with a value, in the order in which they were first put. Where a name stands is found by its
/// hash.
#[derive(Drop)]
pub struct NameMap<'p, V: Drop> {
    entries: Vec<(&'p [u8], V)>,
    places: HashMap<&'p [u8], usize>,
}

impl<'p, V: Drop> Model for NameMap<'p, V> {
    ghost use Rattle.std.specs.Prelude.{List, ℕ};
    ghost use Rattle.std.specs.Borrow.{Bor};
    ghost use Rattle.scad_bindings.specs.NamePlaces.{HasPlaces};

    ghost Value = { List (Bor (List ℕ) × V) };

    ghost view = { λ m. m.entries.items };

    ghost invariant = { λ m. HasPlaces (λ e. e.0.now) (λ k. k.now) m.entries.items m.places };
}

impl<'p, V: Drop> NameMap<'p, V> {
    ghost use Rattle.std.specs.Prelude.{◌≡◌, [], option_copied, is_some, OnOk, OnErr};
    ghost use Rattle.scad_bindings.specs.NamePlaces.{put_in, value_in};

    /// No names. They take no memory.
    pub fn new(alloc: Global) -> NameMap<'p, V>
        ensures { result ≡ [] }
    {
        NameMap {
            entries: Vec::new(alloc),
            places: HashMap::new(alloc),
        }
    }

    /// A name that is there takes the value, another one goes last with it.
    pub fn put(&mut self, name: &'p [u8], value: V) -> Result<(), AllocError>
        ensures put { OnOk result (self.new ≡ put_in self.old name.entry value) }
        ensures refused { OnErr result (self.new ≡ self.old) }
    {
        if let Some(place) = self.places.get(&name) {
            let place = *place;
            self.entries[place].1 = value;
            return Ok(());
        }
        self.entries.reserve(1)?;
        self.places.insert(name, self.entries.len())?;
        self.entries.push_reserved((name, value));
        Ok(())
    }

    /// The value of a name.
    pub fn get(&self, name: &[u8]) -> Option<&V>
        ensures { option_copied result ≡ value_in name.now self.now }
    {
        match self.places.get(&name) {
            Some(place) => Some(&self.entries[*place].1),
            None => None,
        }
    }

    /// Whether the name is there.
    pub fn has(&self, name: &[u8]) -> bool
        ensures { result ≡ is_some (value_in name.now self.now) }
    {
        self.get(name).is_some()
    }

    /// The names with their values.
    pub fn entries(&self) -> &[(&'p [u8], V)]
        ensures { result.now ≡ self.now }
    {
        self.entries.as_slice()
    }

    /// The names with their values, taken out of the map.
    pub fn into_entries(self) -> Vec<(&'p [u8], V)>
        ensures { result.items ≡ self.entry }
    {
        let NameMap { entries, places: _ } = self;
        entries
    }
}
