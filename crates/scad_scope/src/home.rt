//! The functions and modules that hold in a frame.

use crate::entries::last_item;
use crate::kind::Kind;
use crate::table::Table;
use scad_ast::{Item, Scope};
use std::alloc::{AllocError, Global};

/// The most items of a scope that gets no tables, since to go over them takes no longer.
const FEW_ITEMS: usize = 8;

/// How often a scope is gone over before it gets tables: a name takes some twenty times as long to put
/// down as to pass over, and many frames are opened in which a name or two are sought.
const FEW_SEARCHES: u8 = 16;

/// The scope of a frame: with the number of searches so far, or with its tables.
#[derive(Drop)]
pub enum Home<'p> {
    Unscoped,
    Searched(&'p Scope, u8),
    Tabled(Box<Table<'p>>),
}

impl<'p> Home<'p> {
    ghost use Rattle.std.specs.Prelude.{◌≡◌, option_map};
    ghost use Rattle.scad_ast.specs.Scope.{item_of, items};
    ghost use Rattle.scad_scope.specs.Definitions.{item_in, word_of_kind};
    ghost use Rattle.scad_scope.specs.View.{scope_in};

    /// The home of a scope, where there is one. It takes no memory.
    pub fn of(scope: Option<&'p Scope>) -> Home<'p>
        ensures { scope_in result ≡ option_map (λ s. items s.now.items) scope.entry }
    {
        match scope {
            Some(scope) => Home::Searched(scope, 0),
            None => Home::Unscoped,
        }
    }

    /// The scope.
    pub fn scope(&self) -> Option<&'p Scope>
        ensures { option_map (λ s. items s.now.items) result ≡ scope_in self.now }
    {
        match self {
            Home::Unscoped => None,
            Home::Searched(scope, _) => Some(*scope),
            Home::Tabled(table) => Some(table.scope()),
        }
    }

    /// Counts a search, or makes the tables where it is time.
    pub fn prepare(&mut self, alloc: Global) -> Result<(), AllocError>
        ensures { scope_in self.new ≡ scope_in self.old }
    {
        if let Home::Searched(scope, searches) = self {
            if *searches < FEW_SEARCHES {
                *searches += 1;
            } else if FEW_ITEMS < scope.len() {
                let table = Table::of(alloc, *scope)?;
                *self = Home::Tabled(Box::new(alloc, table)?);
            }
        }
        Ok(())
    }

    /// The item that the name means.
    pub fn item(&self, kind: Kind, name: &[u8]) -> Option<&'p Item>
        ensures { option_map (λ i. item_of i.now) result ≡ item_in (word_of_kind kind) name.now (scope_in self.now) }
    {
        match self {
            Home::Unscoped => None,
            Home::Searched(scope, _) => last_item(kind, name, *scope),
            Home::Tabled(table) => table.item(kind, name),
        }
    }
}
