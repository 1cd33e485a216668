//! Where a name can lie.

use std::marker::Model;

/// So many frames outwards, and the place in that frame.
#[derive(Clone, Copy)]
pub struct Slot {
    pub up: usize,
    pub place: usize,
}

/// The slots of a name, innermost first, seen by contracts as a list.
#[derive(Drop)]
pub struct Slots {
    list: Vec<Slot>,
}

impl Model for Slots {
    ghost use Rattle.std.specs.Prelude.{List};
    ghost use Rattle.scad_scope.specs.declared.slot.Slot.{Slot};

    ghost Value = { List Slot };

    ghost view = { λ s. s.list.items };
}

impl Slots {
    ghost use Rattle.std.specs.Prelude.{◌≡◌};

    /// These slots. It takes no memory.
    pub fn from_vec(list: Vec<Slot>) -> Slots
        ensures { result ≡ list.items }
    {
        Slots { list }
    }

    /// The slots, innermost first.
    pub fn as_slice(&self) -> &[Slot]
        ensures { result.now ≡ self.now }
    {
        self.list.as_slice()
    }
}
