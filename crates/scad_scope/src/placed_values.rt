//! Values at the places of the names that a frame can hold.

ghost use Rattle.std.specs.Prelude.{◌≡◌, true, map, option_map, vec_len};
ghost use Rattle.std.specs.List.{range_with_len};
ghost use Rattle.scad_scope.specs.ListedValues.{ArePlaces, or_unlisted, place_in_entry};

use crate::names::Names;
use crate::place_search::number_of;
use scad_value::Value;
use std::alloc::{AllocError, Global};

/// Where a name lies: its value has the number of an entry, or its place is free, or it isn't listed.
pub enum Found {
    Set(usize),
    Free(usize),
    Unlisted,
}

/// Values, each with the place of its name, in the order in which the names were first set. Where this is the order of
/// the places, as it is in scopes, the number of an entry is its place, and nothing is sought.
#[derive(Drop)]
pub struct PlacedValues<'p> {
    names: Option<&'p Names>,
    entries: Vec<(usize, Value)>,
    in_order: bool,
    ghost places: { ArePlaces (or_unlisted (option_map (λ n. n.now) names)) (map place_in_entry entries.items) },
    ghost ordered: { in_order ≡ true → map place_in_entry entries.items ≡ range_with_len 0 (vec_len entries) },
}

impl<'p> PlacedValues<'p> {
    ghost use Rattle.std.specs.Prelude.{ℕ, List, [], ◌∷◌, ◌++◌, ◌<◌, Some, None, length, OnOk, OnErr};
    ghost use Rattle.scad_value.specs.View.{datum_of};
    ghost use Rattle.scad_scope.specs.FrameNames.{listing_of, placed_in};
    ghost use Rattle.scad_scope.specs.Listing.{place_of, name_at};
    ghost use Rattle.scad_scope.specs.Names.{Names as NamesSet, place_in, value_of_name, with_name};
    ghost use Rattle.scad_scope.specs.ListedValues.{number_in};
    ghost use Rattle.scad_scope.specs.NameSearch.{IsFound};

    /// No values, at the places of these names. It takes no memory.
    pub fn new(alloc: Global, names: Option<&'p Names>) -> PlacedValues<'p>
        ensures names { option_map (λ n. n.now) result.names ≡ option_map (λ n. n.now) names.entry }
        ensures empty { placed_in result ≡ [] }
    {
        PlacedValues {
            names,
            entries: Vec::new(alloc),
            in_order: true,
        }
    }

    /// The names that have places.
    pub fn names(&self) -> Option<&'p Names>
        ensures { option_map (λ n. n.now) result ≡ option_map (λ n. n.now) self.now.names }
    {
        self.names
    }

    /// The place of a name.
    fn place(&self, name: &[u8]) -> Option<usize>
        ensures { result ≡ place_of name.now (listing_of self.now) }
    {
        match self.names {
            Some(names) => names.place(name),
            None => None,
        }
    }

    /// The number of the entry of a place, or how many entries there are.
    fn number(&self, place: usize) -> usize
        ensures { result ≡ number_in place (map place_in_entry self.now.entries.items) }
    {
        let count = self.entries.len();
        if self.in_order {
            if place < count { place } else { count }
        } else {
            number_of(self.entries.as_slice(), place)
        }
    }

    /// Where the name lies.
    pub fn find(&self, name: &[u8]) -> Found
        ensures { IsFound name.now (listing_of self.now) (placed_in self.now) result }
    {
        match self.place(name) {
            Some(place) => {
                let number = self.number(place);
                if number < self.entries.len() {
                    Found::Set(number)
                } else {
                    Found::Free(place)
                }
            }
            None => Found::Unlisted,
        }
    }

    /// The value at a place, where it is that of a name.
    pub fn at(&self, place: usize) -> Option<&Value>
        ensures { (name : List ℕ) → place_of name (listing_of self.now) ≡ Some place
            → option_map (λ v. datum_of v.now) result ≡ value_of_name name (placed_in self.now) }
    {
        let number = self.number(place);
        if number < self.entries.len() {
            Some(&self.entries[number].1)
        } else {
            None
        }
    }

    /// The value of the entry of a number.
    pub fn value(&self, number: usize) -> &Value
        requires { number < length (placed_in self.now) }
        ensures { (name : List ℕ) (more : NamesSet) → number ≡ place_in name (placed_in self.now)
            → Some (datum_of result.now) ≡ value_of_name name (placed_in self.now ++ more) }
    {
        &self.entries[number].1
    }

    /// Sets the value of the entry of a number.
    pub fn write(&mut self, number: usize, value: Value)
        requires { number < length (placed_in self.old) }
        ensures named { (name : List ℕ) (more : NamesSet) → number ≡ place_in name (placed_in self.old)
            → placed_in self.new ++ more ≡ with_name name (datum_of value) (placed_in self.old ++ more) }
        ensures names { option_map (λ n. n.now) self.new.names ≡ option_map (λ n. n.now) self.old.names }
    {
        self.entries[number].1 = value;
    }

    /// Whether the places stay in their order where a value is put last at a place.
    fn goes_on(&self, place: usize) -> bool
        ensures { result ≡ true → (self.now.in_order ≡ true) × (place ≡ vec_len self.now.entries) }
    {
        self.in_order && place == self.entries.len()
    }

    /// Puts a value last, at a place that is free.
    pub fn push(&mut self, place: usize, value: Value) -> Result<(), AllocError>
        requires { place_of (name_at (listing_of self.old) place) (listing_of self.old) ≡ Some place }
        ensures put { OnOk result (placed_in self.new
            ≡ placed_in self.old ++ (name_at (listing_of self.old) place, datum_of value) ∷ []) }
        ensures refused { OnErr result (placed_in self.new ≡ placed_in self.old) }
        ensures names { option_map (λ n. n.now) self.new.names ≡ option_map (λ n. n.now) self.old.names }
    {
        let in_order = self.goes_on(place);
        self.entries.reserve(1)?;
        self.entries.push_reserved((place, value));
        self.in_order = in_order;
        Ok(())
    }
}
