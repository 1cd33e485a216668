//! The names of a frame with their values.

ghost use Rattle.std.specs.Prelude.{◌≡◌, None};
ghost use Rattle.scad_scope.specs.FrameNames.{listing_of, named_in};
ghost use Rattle.scad_scope.specs.ListedValues.{first_place};

use crate::named_values::NamedValues;
use crate::names::Names;
use crate::placed_values::{Found, PlacedValues};
use scad_value::Value;
use std::alloc::{AllocError, Global};

/// Names with their values, in the order in which they were first set: those at the places of the names that the frame was
/// pushed with, and from the first name on that isn't among these all further ones by name.
#[derive(Drop)]
pub struct FrameNames<'p> {
    placed: PlacedValues<'p>,
    named: NamedValues,
    ghost other: { first_place (listing_of placed) (named_in named) ≡ None },
}

impl<'p> FrameNames<'p> {
    ghost use Rattle.std.specs.Prelude.{ℕ, List, [], ◌≤◌, Some, length, option_map, OnOk, OnErr};
    ghost use Rattle.scad_value.specs.View.{datum_of};
    ghost use Rattle.scad_scope.specs.Chain.{names_held};
    ghost use Rattle.scad_scope.specs.FrameNames.{placed_in};
    ghost use Rattle.scad_scope.specs.Listing.{Listing, place_of};
    ghost use Rattle.scad_scope.specs.Names.{place_in, value_of_name, with_name};
    ghost use Rattle.scad_scope.specs.View.{names_in};

    /// No values, with places for these names. It takes no memory.
    #[tactic(auto, unfolding(crate::specs::View::names_in))]
    pub fn new(alloc: Global, names: Option<&'p Names>) -> FrameNames<'p>
        ensures names { option_map (λ n. n.now) result.placed.names ≡ option_map (λ n. n.now) names.entry }
        ensures empty { names_in result ≡ [] }
    {
        FrameNames {
            placed: PlacedValues::new(alloc, names),
            named: NamedValues::new(alloc),
        }
    }

    /// The names that have places, where no other name has a value.
    #[tactic(auto, using(crate::proofs::HeldNames::told), unfolding(crate::specs::View::names_in))]
    pub fn names(&self) -> Option<&'p Names>
        ensures { option_map (λ n. n.now) result
            ≡ names_held (option_map (λ n. n.now) self.now.placed.names) (names_in self.now) }
    {
        if self.named.is_empty() {
            self.placed.names()
        } else {
            None
        }
    }

    /// Sets a name.
    #[tactic(auto, using(crate::proofs::HeldNames::sets), unfolding(crate::specs::View::names_in))]
    pub fn set(&mut self, alloc: Global, name: &[u8], value: Value) -> Result<(), AllocError>
        ensures named { OnOk result (names_in self.new
            ≡ with_name name.now (datum_of value) (names_in self.old)) }
        ensures refused { OnErr result (names_in self.new ≡ names_in self.old) }
        ensures names { option_map (λ n. n.now) self.new.placed.names ≡ option_map (λ n. n.now) self.old.placed.names }
    {
        match self.placed.find(name) {
            Found::Set(number) => {
                self.placed.write(number, value);
                Ok(())
            }
            Found::Free(place) => {
                if self.named.is_empty() {
                    self.placed.push(place, value)
                } else {
                    self.add(alloc, name, value)
                }
            }
            Found::Unlisted => self.add(alloc, name, value),
        }
    }

    /// Sets a name by itself.
    #[tactic(auto, using(crate::proofs::Few::unplaced), unfolding(crate::specs::View::names_in))]
    fn add(&mut self, alloc: Global, name: &[u8], value: Value) -> Result<(), AllocError>
        requires absent { length (placed_in self.old.placed) ≤ place_in name.now (placed_in self.old.placed) }
        requires other { first_place (listing_of self.old.placed)
            (with_name name.now (datum_of value) (named_in self.old.named)) ≡ None }
        ensures named { OnOk result (names_in self.new
            ≡ with_name name.now (datum_of value) (names_in self.old)) }
        ensures refused { OnErr result (names_in self.new ≡ names_in self.old) }
        ensures names { option_map (λ n. n.now) self.new.placed.names ≡ option_map (λ n. n.now) self.old.placed.names }
    {
        self.named.set(alloc, name, value)
    }

    /// The value of a name.
    #[tactic(auto, using(crate::proofs::Few::unplaced), unfolding(crate::specs::View::names_in))]
    pub fn get(&self, name: &[u8]) -> Option<&Value>
        ensures { option_map (λ v. datum_of v.now) result
            ≡ value_of_name name.now (names_in self.now) }
    {
        match self.placed.find(name) {
            Found::Set(number) => Some(self.placed.value(number)),
            Found::Free(_) => self.named.get(name),
            Found::Unlisted => self.named.get(name),
        }
    }

    /// The value at the place of a name, where only names that have places have values.
    #[tactic(auto, unfolding(crate::specs::View::names_in))]
    pub fn at(&self, place: usize) -> Option<&Value>
        ensures { (name : List ℕ) (listing : Listing)
            → names_held (option_map (λ n. n.now) self.now.placed.names) (names_in self.now) ≡ Some listing
            → place_of name listing ≡ Some place
            → option_map (λ v. datum_of v.now) result ≡ value_of_name name (names_in self.now) }
    {
        self.placed.at(place)
    }
}
