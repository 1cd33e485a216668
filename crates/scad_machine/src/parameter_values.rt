//! Values by the names of parameters.

ghost use Rattle.std.specs.Prelude.{◌≡◌, map, OnOk};
ghost use Rattle.scad_value.specs.View.{datum_of};
ghost use Rattle.scad_scope.specs.Names.{place_in, with_name};
ghost use Rattle.scad_machine.specs.Parameters.{shown};

use scad_bindings::NameMap;
use scad_value::Value;
use std::alloc::{AllocError, Global};

/// Of how many arguments the names lie in a list. Most calls have few, and a map of them takes memory of its own beside
/// the list.
const FEW_ARGUMENTS: usize = 8;

/// The values of parameters and `$` names by their names, in the order in which they are first given.
#[derive(Drop)]
pub(crate) enum ParameterValues<'p> {
    Few(Vec<(&'p [u8], Value)>),
    Many(NameMap<'p, Value>),
}

/// How many names stand before a name in a list: all of them where it isn't there.
#[tactic(auto, using(crate::proofs::Giving::places))]
fn place_of(all: &[(&[u8], Value)], name: &[u8]) -> usize
    ensures { result ≡ place_in name.now (map shown all.now) }
{
    let mut i = 0;
    'entries: for entry in all {
        if name == entry.0 {
            return i;
        }
        i += 1;
    }
    i
}

/// A name that is in the list takes the value, another one goes last with it.
#[tactic(auto, using(crate::proofs::Giving::listed))]
fn put<'p>(all: &mut Vec<(&'p [u8], Value)>, name: &'p [u8], value: Value) -> Result<(), AllocError>
    ensures { OnOk result (map shown all.new.items
        ≡ with_name name.now (datum_of value) (map shown all.old.items)) }
{
    let place = place_of(all.as_slice(), name);
    if place < all.len() {
        all[place].1 = value;
        return Ok(());
    }
    all.push((name, value))?;
    Ok(())
}

impl<'p> ParameterValues<'p> {
    ghost use Rattle.std.specs.Prelude.{◌≡◌, [], map, OnOk};
    ghost use Rattle.scad_value.specs.View.{datum_of};
    ghost use Rattle.scad_scope.specs.Names.{with_name};
    ghost use Rattle.scad_machine.specs.Arguments.{is_given};
    ghost use Rattle.scad_machine.specs.Parameters.{shown};
    ghost use Rattle.scad_machine.specs.View.{values_in};

    /// No values, before so many arguments. They take no memory.
    pub fn new(alloc: Global, arguments: usize) -> ParameterValues<'p>
        ensures { values_in result ≡ [] }
    {
        if arguments <= FEW_ARGUMENTS {
            ParameterValues::Few(Vec::new(alloc))
        } else {
            ParameterValues::Many(NameMap::new(alloc))
        }
    }

    /// The name takes the value.
    #[tactic(auto, using(crate::proofs::Giving::shown_put))]
    pub fn put(&mut self, name: &'p [u8], value: Value) -> Result<(), AllocError>
        ensures { OnOk result (values_in self.new
            ≡ with_name name.now (datum_of value) (values_in self.old)) }
    {
        match self {
            ParameterValues::Few(all) => put(all, name, value),
            ParameterValues::Many(all) => all.put(name, value),
        }
    }

    /// Whether the name has a value.
    #[tactic(auto, using(crate::proofs::Giving::has))]
    pub fn has(&self, name: &[u8]) -> bool
        ensures { result ≡ is_given name.now (values_in self.now) }
    {
        match self {
            ParameterValues::Few(all) => place_of(all.as_slice(), name) < all.len(),
            ParameterValues::Many(all) => all.has(name),
        }
    }

    /// The names with their values.
    pub fn into_entries(self) -> Vec<(&'p [u8], Value)>
        ensures { map shown result.items ≡ values_in self.entry }
    {
        match self {
            ParameterValues::Few(all) => all,
            ParameterValues::Many(all) => all.into_entries(),
        }
    }
}
