//! A variable of a scope.

ghost use Rattle.std.specs.Prelude.{◌≡◌};

use scad_fault::Text;
use std::marker::Model;

/// A name that a scope assigns, and the place in the scope of the item that assigns it last.
#[derive(Drop)]
pub struct Binding {
    pub name: Text,
    pub item: usize,
}

/// The names that a scope assigns, seen by contracts as a list.
#[derive(Drop)]
pub struct Bindings {
    list: Vec<Binding>,
}

impl Model for Bindings {
    ghost use Rattle.std.specs.Prelude.{List};
    ghost use Rattle.scad_bindings.specs.declared.binding.Binding.{Binding};

    ghost Value = { List Binding };

    ghost view = { λ b. b.list.items };
}

impl Bindings {
    /// These names. It takes no memory.
    pub fn from_vec(list: Vec<Binding>) -> Bindings
        ensures { result ≡ list.items }
    {
        Bindings { list }
    }

    /// The bindings, in the order of first assignment.
    pub fn as_slice(&self) -> &[Binding]
        ensures { result.now ≡ self.now }
    {
        self.list.as_slice()
    }
}
