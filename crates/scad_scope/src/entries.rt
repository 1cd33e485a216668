//! The functions and modules of a scope, by their names.

ghost use Rattle.std.specs.Prelude.{◌≡◌, None, IfOk, OnOk, map, option_map};
ghost use Rattle.scad_ast.specs.Scope.{item_of, items};
ghost use Rattle.scad_scope.specs.Definitions.{defining, last_item, word_of_kind};
ghost use Rattle.scad_bindings.specs.Notes.{noted, placed};
ghost use Rattle.scad_scope.specs.Tables.{tabled, item_by};

use crate::kind::Kind;
use scad_ast::{Item, Scope};
use scad_bindings::NameMap;
use std::alloc::{AllocError, Global};

/// The name that an item defines, where it is of the kind.
#[tactic(auto, using(crate::proofs::Tables::words))]
fn word_of<'p>(kind: Kind, item: &'p Item) -> Option<&'p [u8]>
    ensures { option_map (λ w. w.now) result ≡ word_of_kind kind (item_of item.now) }
{
    match item {
        Item::Function(word, _, _, _) => match kind {
            Kind::Function => Some(word.as_slice()),
            Kind::Module => None,
        },
        Item::Module(word, _, _, _) => match kind {
            Kind::Function => None,
            Kind::Module => Some(word.as_slice()),
        },
        Item::Assign(_, _, _) => None,
        Item::Run(_) => None,
    }
}

/// The item, where it defines the name, or else another.
fn defining<'p>(
    kind: Kind,
    name: &[u8],
    item: &'p Item,
    other: Option<&'p Item>,
) -> Option<&'p Item>
    ensures { option_map (λ i. item_of i.now) result ≡ defining (word_of_kind kind) name.now
        (item_of item.now) (option_map (λ i. item_of i.now) other.entry) }
{
    match word_of(kind, item) {
        Some(word) => { if name == word { Some(item) } else { other } }
        None => other,
    }
}

/// The last item of a scope that defines the name.
pub fn last_item<'p>(kind: Kind, name: &[u8], scope: &'p Scope) -> Option<&'p Item>
    ensures { option_map (λ i. item_of i.now) result
        ≡ last_item (word_of_kind kind) name.now None (items scope.now.items) }
{
    let mut found = None;
    'items: for item in scope {
        found = defining(kind, name, item, found);
    }
    found
}

/// Notes the item at a place: where it defines a name, it is the last one to define it so far.
#[tactic(auto, using(scad_bindings::proofs::Notes::placed_put))]
fn note<'p>(
    kind: Kind,
    item: &'p Item,
    place: usize,
    rows: &mut NameMap<'p, usize>,
) -> Result<(), AllocError>
    ensures { OnOk result (map placed rows.new
        ≡ noted (map placed rows.old) place (word_of_kind kind (item_of item.now))) }
{
    if let Some(word) = word_of(kind, item) {
        rows.put(word, place)?;
    }
    Ok(())
}

/// The names that a scope defines, each with the place of the item that defines it last.
pub fn rows_of<'p>(
    alloc: Global,
    kind: Kind,
    scope: &'p Scope,
) -> Result<NameMap<'p, usize>, AllocError>
    ensures { IfOk result (λ rows. map placed rows
        ≡ tabled (word_of_kind kind) (items scope.now.items)) }
{
    let mut rows = NameMap::new(alloc);
    let mut place = 0;
    'items: for item in scope {
        note(kind, item, place, &mut rows)?;
        place += 1;
    }
    Ok(rows)
}

/// The item of a name, by the table of its scope.
pub fn item_by<'p>(scope: &'p Scope, rows: &NameMap<'p, usize>, name: &[u8]) -> Option<&'p Item>
    ensures { option_map (λ i. item_of i.now) result
        ≡ item_by scope.now.items (map placed rows.now) name.now }
{
    match rows.get(name) {
        Some(place) => scope.get(*place),
        None => None,
    }
}
