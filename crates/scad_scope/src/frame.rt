//! A frame: names with their values.

use crate::child_statements::Kept;
use crate::frame_names::FrameNames;
use crate::home::Home;
use crate::kind::Kind;
use crate::slot::Slot;
use scad_ast::Item;
use scad_value::Value;
use std::alloc::{AllocError, Global};

/// A frame of a scope or a call. Its parent is the number of the frame round it.
#[derive(Drop)]
pub struct Frame<'p> {
    pub names: FrameNames<'p>,
    pub parent: Option<u32>,
    pub home: Home<'p>,
    pub kept: Option<Kept<'p>>,
}

impl<'p> Frame<'p> {
    ghost use Rattle.std.specs.Prelude.{◌≡◌, ◌+◌, ◌∷◌, ℕ, List, Some, None, drop, option_map, IfOk, OnOk, OnErr, MatchResult};
    ghost use Rattle.scad_ast.specs.Scope.{item_of};
    ghost use Rattle.scad_value.specs.View.{datum_of};
    ghost use Rattle.scad_scope.specs.Chain.{names_held};
    ghost use Rattle.scad_scope.specs.Definitions.{item_in, word_of_kind};
    ghost use Rattle.scad_scope.specs.Listing.{Listing};
    ghost use Rattle.scad_scope.specs.Names.{value_of_name};
    ghost use Rattle.scad_scope.specs.Slots.{slots_from};
    ghost use Rattle.scad_scope.specs.FrameStore.{with_name_in};
    ghost use Rattle.scad_scope.specs.View.{frame_listed, frame_stored};

    /// Sets the name.
    #[tactic(auto, unfolding(crate::specs::View::frame_stored, crate::specs::View::frame_listed))]
    pub fn set(&mut self, alloc: Global, name: &[u8], value: Value) -> Result<(), AllocError>
        ensures named { OnOk result (frame_stored self.new
            ≡ with_name_in name.now (datum_of value) (frame_stored self.old)) }
        ensures refused { OnErr result (frame_stored self.new ≡ frame_stored self.old) }
        ensures listed { frame_listed self.new ≡ frame_listed self.old }
    {
        self.names.set(alloc, name, value)
    }

    /// The value of the name.
    #[tactic(auto, unfolding(crate::specs::View::frame_stored, crate::specs::View::frame_listed))]
    pub fn get(&self, name: &[u8]) -> Option<&Value>
        ensures { option_map (λ v. datum_of v.now) result
            ≡ value_of_name name.now (frame_stored self.now).names }
    {
        self.names.get(name)
    }

    /// The value of the name whose slots these are, where this frame is so many outwards and the slots from a number on are
    /// left; or the number of the next slot, where the frame doesn't have the name.
    pub fn find(&self, slots: &[Slot], next: usize, up: usize) -> Result<&Value, usize>
        ensures { (name : List ℕ) (listing : Listing) (more : List Listing)
            → names_held (frame_listed self.now) (frame_stored self.now).names ≡ Some listing
            → drop next slots.now ≡ slots_from name up (listing ∷ more)
            → MatchResult result
            (λ v. value_of_name name (frame_stored self.now).names ≡ Some (datum_of v.now))
            (λ j. (value_of_name name (frame_stored self.now).names ≡ None)
            × (drop j slots.now ≡ slots_from name (up + 1) more)) }
    {
        if slots.len() <= next {
            return Err(next);
        }
        if slots[next].up != up {
            return Err(next);
        }
        match self.names.at(slots[next].place) {
            Some(value) => Ok(value),
            None => Err(next + 1),
        }
    }

    /// The item of its scope that a name means.
    #[tactic(auto, unfolding(crate::specs::View::frame_stored, crate::specs::View::frame_listed))]
    pub fn item(
        &mut self,
        alloc: Global,
        kind: Kind,
        name: &[u8],
    ) -> Result<Option<&'p Item>, AllocError>
        ensures found { IfOk result (λ r. option_map (λ i. item_of i.now) r
            ≡ item_in (word_of_kind kind) name.now (frame_stored self.old).scope) }
        ensures same { frame_stored self.new ≡ frame_stored self.old }
        ensures listed { frame_listed self.new ≡ frame_listed self.old }
    {
        self.home.prepare(alloc)?;
        Ok(self.home.item(kind, name))
    }
}
