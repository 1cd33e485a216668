//! The last name of an object of a memory desk.
ghost use Rattle.std.specs.Prelude.{◌≡◌, None, IfOk};

use std::alloc::{AllocError, Global};
use std::marker::Model;

/// How many bytes of a name are kept.
pub const NAME_ROOM: usize = 4096;

/// The name last handed in for an object, in a room of its own. A name that is longer isn't told.
#[derive(Drop)]
pub struct LastName {
    bytes: Vec<u8>,
    told: bool,
}

impl Model for LastName {
    ghost use Rattle.std.specs.Prelude.{ℕ, List, ◌≤◌, Option, Some, None, if◌then◌else◌, vec_capacity};
    ghost use Rattle.memory_desk.specs.declared.last_name.TheConstants.{NAME_ROOM};

    ghost Value = { Option (List ℕ) };

    ghost view = { λ n. if n.told then Some n.bytes.items else None };

    ghost invariant = { λ n. NAME_ROOM ≤ vec_capacity n.bytes };
}

impl LastName {
    ghost use Rattle.memory_desk.specs.Memory.{told_name};

    /// No name yet, and the room for one.
    pub fn new(alloc: Global) -> Result<LastName, AllocError>
        ensures { IfOk result (λ n. n ≡ None) }
    {
        Ok(LastName {
            bytes: Vec::with_capacity(alloc, NAME_ROOM)?,
            told: false,
        })
    }

    /// Keeps the name. It takes no memory.
    pub fn keep(&mut self, name: &str)
        ensures { self.new ≡ told_name name.now }
    {
        self.told = name.len() <= NAME_ROOM;
        if self.told {
            self.bytes.clear();
            self.bytes.extend_from_slice(name.as_bytes()).unwrap();
        }
    }
}
