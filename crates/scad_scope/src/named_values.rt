//! The names of a frame with their values.

ghost use Rattle.std.specs.Prelude.{◌≡◌, ◌<◌, map, vec_len, vec_capacity, OnOk};
ghost use Rattle.scad_scope.specs.Names.{place_in};
ghost use Rattle.scad_scope.specs.FrameNames.{named};

use crate::further_names::FurtherNames;
use crate::word::Word;
use scad_value::Value;
use std::alloc::{AllocError, Global};

/// How many names lie in a list. The frame of a call has few, and a map of them takes several times
/// the memory.
const FEW_NAMES: usize = 8;

/// Names with their values, in the order in which they were first set: the first of them in a list,
/// further ones in a map.
#[derive(Drop)]
pub struct NamedValues {
    few: Vec<(Word, Value)>,
    more: Option<Box<FurtherNames>>,
}

/// How many names stand before a name in a list: all of them where it isn't there.
fn place_of(all: &[(Word, Value)], name: &[u8]) -> usize
    ensures { result ≡ place_in name.now (map named all.now) }
{
    let mut i = 0;
    'entries: for entry in all {
        if name == entry.0.as_slice() {
            return i;
        }
        i += 1;
    }
    i
}

/// Makes room for one more, for the first one no more than that: many frames have no other.
fn make_room(all: &mut Vec<(Word, Value)>) -> Result<(), AllocError>
    ensures items { all.new.items ≡ all.old.items }
    ensures room { OnOk result (vec_len all.new < vec_capacity all.new) }
{
    if all.is_empty() {
        all.reserve_exact(1)
    } else {
        all.reserve(1)
    }
}

impl NamedValues {
    ghost use Rattle.std.specs.Prelude.{◌≤◌, [], length, option_map, OnErr};
    ghost use Rattle.scad_value.specs.View.{datum_of};
    ghost use Rattle.scad_scope.specs.Names.{place_in, value_of_name, with_name};
    ghost use Rattle.scad_scope.specs.FrameNames.{few_in, is_nil, more_in, named_in};

    /// No names. They take no memory.
    #[tactic(auto, unfolding(crate::specs::FrameNames::named_in))]
    pub fn new(alloc: Global) -> NamedValues
        ensures { named_in result ≡ [] }
    {
        NamedValues {
            few: Vec::new(alloc),
            more: None,
        }
    }

    /// Sets a name.
    #[tactic(auto, unfolding(crate::specs::FrameNames::named_in))]
    pub fn set(&mut self, alloc: Global, name: &[u8], value: Value) -> Result<(), AllocError>
        ensures named { OnOk result (named_in self.new
            ≡ with_name name.now (datum_of value) (named_in self.old)) }
        ensures refused { OnErr result (named_in self.new ≡ named_in self.old) }
    {
        let place = place_of(self.few.as_slice(), name);
        if place < self.few.len() {
            self.few[place].1 = value;
            return Ok(());
        }
        self.add(alloc, name, value)
    }

    /// Sets a name that isn't among the few.
    #[tactic(auto, unfolding(crate::specs::FrameNames::named_in))]
    fn add(&mut self, alloc: Global, name: &[u8], value: Value) -> Result<(), AllocError>
        requires { length (few_in self.old) ≤ place_in name.now (few_in self.old) }
        ensures named { OnOk result (named_in self.new
            ≡ with_name name.now (datum_of value) (named_in self.old)) }
        ensures refused { OnErr result (named_in self.new ≡ named_in self.old) }
    {
        if let Some(held) = &mut self.more {
            held.set(alloc, name, value)?;
            return Ok(());
        }
        if self.few.len() < FEW_NAMES {
            self.append(alloc, name, value)
        } else {
            self.start(alloc, name, value)
        }
    }

    /// Puts a name behind the few.
    #[tactic(auto, unfolding(crate::specs::FrameNames::named_in))]
    fn append(&mut self, alloc: Global, name: &[u8], value: Value) -> Result<(), AllocError>
        requires absent { length (few_in self.old) ≤ place_in name.now (few_in self.old) }
        requires last { more_in self.old ≡ [] }
        ensures named { OnOk result (named_in self.new
            ≡ with_name name.now (datum_of value) (named_in self.old)) }
        ensures refused { OnErr result (named_in self.new ≡ named_in self.old) }
    {
        make_room(&mut self.few)?;
        let word = Word::of(alloc, name)?;
        self.few.push_reserved((word, value));
        Ok(())
    }

    /// Begins the map with a name.
    fn start(&mut self, alloc: Global, name: &[u8], value: Value) -> Result<(), AllocError>
        requires absent { length (few_in self.old) ≤ place_in name.now (few_in self.old) }
        requires last { more_in self.old ≡ [] }
        ensures named { OnOk result (named_in self.new
            ≡ with_name name.now (datum_of value) (named_in self.old)) }
        ensures refused { OnErr result (named_in self.new ≡ named_in self.old) }
    {
        let mut held = FurtherNames::new(alloc);
        held.set(alloc, name, value)?;
        self.more = Some(Box::new(alloc, held)?);
        Ok(())
    }

    /// The value of a name.
    pub fn get(&self, name: &[u8]) -> Option<&Value>
        ensures { option_map (λ v. datum_of v.now) result
            ≡ value_of_name name.now (named_in self.now) }
    {
        let place = place_of(self.few.as_slice(), name);
        if place < self.few.len() {
            return Some(&self.few[place].1);
        }
        match &self.more {
            Some(held) => held.get(name),
            None => None,
        }
    }

    /// Whether there are no names.
    pub fn is_empty(&self) -> bool
        ensures { result ≡ is_nil (named_in self.now) }
    {
        match &self.more {
            Some(held) => self.few.is_empty() && held.is_empty(),
            None => self.few.is_empty(),
        }
    }
}
