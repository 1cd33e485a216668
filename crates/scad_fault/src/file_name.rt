//! The name of a file.
ghost use Rattle.std.specs.Prelude.{◌≡◌, ℕ, List, IfOk, string_bytes};

use std::alloc::{AllocError, Global};
use std::marker::Model;

/// The name of a file, seen by contracts as the list of its bytes.
#[derive(Drop)]
pub struct FileName {
    name: String,
}

impl Model for FileName {
    ghost Value = { List ℕ };

    ghost view = { λ f. string_bytes f.name };
}

impl FileName {
    /// A copy of the name.
    pub fn of(alloc: Global, name: &str) -> Result<FileName, AllocError>
        ensures { IfOk result (λ f. f ≡ name.now) }
    {
        Ok(FileName {
            name: String::from_str(alloc, name)?,
        })
    }

    /// The name.
    pub fn as_str(&self) -> &str
        ensures { result.now ≡ self.now }
    {
        self.name.as_str()
    }
}
