//! The variables of a scope (OpenSCAD User Manual, "Scope of variables").

ghost use Rattle.std.specs.Prelude.{◌≡◌, IfOk, OnOk, map};
ghost use Rattle.scad_ast.specs.Scope.{item_of, items};
ghost use Rattle.scad_bindings.specs.Assignments.{assigned, bindings};
ghost use Rattle.scad_bindings.specs.Notes.{noted, placed, as_binding};

use crate::binding::{Binding, Bindings};
use crate::name_map::NameMap;
use scad_ast::{Item, Scope};
use scad_fault::Text;
use std::alloc::{AllocError, Global};

/// Notes the item at a place: where it is an assignment, it is the last one to its name so far.
#[tactic(auto, using(crate::proofs::Notes::placed_put))]
fn note<'p>(last: &mut NameMap<'p, usize>, item: &'p Item, place: usize) -> Result<(), AllocError>
    ensures { OnOk result (map placed last.new
        ≡ noted (map placed last.old) place (assigned (item_of item.now))) }
{
    if let Item::Assign(name, _, _) = item {
        last.put(name.as_slice(), place)?;
    }
    Ok(())
}

/// The names with their places, as a list.
fn listed<'p>(alloc: Global, last: &NameMap<'p, usize>) -> Result<Bindings, AllocError>
    ensures { IfOk result (λ b. b ≡ map as_binding last.now) }
{
    let entries = last.entries();
    let mut list = Vec::with_capacity(alloc, entries.len())?;
    'entries: for entry in entries {
        let name = Text::of(alloc, entry.0)?;
        list.push(Binding {
            name,
            item: entry.1,
        })?;
    }
    Ok(Bindings::from_vec(list))
}

/// The names that the scope assigns, in the order of their first assignments, each with the place of
/// the item that assigns it last.
#[tactic(auto, using(crate::proofs::Rows::left, crate::proofs::Notes::listed_bindings))]
pub fn bindings(alloc: Global, scope: &Scope) -> Result<Bindings, AllocError>
    ensures { IfOk result (λ b. b ≡ bindings (items scope.now.items)) }
{
    let mut last = NameMap::new(alloc);
    let mut place = 0;
    'items: for item in scope {
        note(&mut last, item, place)?;
        place += 1;
    }
    listed(alloc, &last)
}
