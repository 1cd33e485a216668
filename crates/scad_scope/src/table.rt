//! A scope with tables of its functions and modules.

ghost use Rattle.std.specs.Prelude.{◌≡◌, map};
ghost use Rattle.scad_ast.specs.Scope.{items};
ghost use Rattle.scad_scope.specs.Definitions.{function_word, module_word};
ghost use Rattle.scad_bindings.specs.Notes.{placed};
ghost use Rattle.scad_scope.specs.Tables.{tabled};

use crate::entries::{item_by, rows_of};
use crate::kind::Kind;
use scad_ast::{Item, Scope};
use scad_bindings::NameMap;
use std::alloc::{AllocError, Global};

/// A scope, and for each name that it defines the place of the item that defines it last.
#[derive(Drop)]
pub struct Table<'p> {
    scope: &'p Scope,
    functions: NameMap<'p, usize>,
    modules: NameMap<'p, usize>,
    ghost of_functions: { map placed functions ≡ tabled function_word (items scope.now.items) },
    ghost of_modules: { map placed modules ≡ tabled module_word (items scope.now.items) },
}

impl<'p> Table<'p> {
    ghost use Rattle.std.specs.Prelude.{IfOk, None, option_map};
    ghost use Rattle.scad_ast.specs.Scope.{item_of};
    ghost use Rattle.scad_scope.specs.Definitions.{last_item, word_of_kind};

    /// The tables of a scope.
    pub fn of(alloc: Global, scope: &'p Scope) -> Result<Table<'p>, AllocError>
        ensures { IfOk result (λ t. items t.scope.now.items ≡ items scope.now.items) }
    {
        let functions = rows_of(alloc, Kind::Function, scope)?;
        let modules = rows_of(alloc, Kind::Module, scope)?;
        Ok(Table {
            scope,
            functions,
            modules,
        })
    }

    /// The scope.
    pub fn scope(&self) -> &'p Scope
        ensures { items result.now.items ≡ items self.now.scope.now.items }
    {
        self.scope
    }

    /// The item that the name means.
    #[tactic(auto, using(crate::proofs::Tables::found))]
    pub fn item(&self, kind: Kind, name: &[u8]) -> Option<&'p Item>
        ensures { option_map (λ i. item_of i.now) result
            ≡ last_item (word_of_kind kind) name.now None (items self.now.scope.now.items) }
    {
        match kind {
            Kind::Function => item_by(self.scope, &self.functions, name),
            Kind::Module => item_by(self.scope, &self.modules, name),
        }
    }
}
