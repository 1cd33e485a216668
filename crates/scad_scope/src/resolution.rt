//! The slots of a name among the names of frames.

ghost use Rattle.std.specs.Prelude.{◌≡◌, ◌++◌, [], IfOk, OnOk};
ghost use Rattle.scad_scope.specs.Slots.{slot_onto, slots_of};

use crate::names::Names;
use crate::slot::{Slot, Slots};
use std::alloc::{AllocError, Global};

/// Puts the slot of a place last, where the name has one.
fn note(list: &mut Vec<Slot>, up: usize, place: Option<usize>) -> Result<(), AllocError>
    ensures { OnOk result (list.new.items ≡ list.old.items ++ slot_onto up place []) }
{
    if let Some(place) = place {
        list.push(Slot { up, place })?;
    }
    Ok(())
}

/// The slots of a name in frames that can hold these names, of which the innermost is the first: one for each frame that
/// lists it.
pub fn resolve(alloc: Global, frames: &[Names], name: &[u8]) -> Result<Slots, AllocError>
    ensures { IfOk result (λ s. s ≡ slots_of name.now frames.now) }
{
    let mut list = Vec::new(alloc);
    let mut up = 0;
    'frames: for names in frames {
        note(&mut list, up, names.place(name))?;
        up += 1;
    }
    Ok(Slots::from_vec(list))
}
