//! A list of characters.
ghost use Rattle.std.specs.Prelude.{◌≡◌, ℕ, List, [], IfOk};

use std::alloc::{AllocError, Global};
use std::marker::Model;

/// Characters, seen by contracts as the list of their code points.
#[derive(Drop)]
pub struct Chars {
    chars: Vec<char>,
}

impl Model for Chars {
    ghost Value = { List ℕ };

    ghost view = { λ c. c.chars.items };
}

impl Chars {
    /// No characters. It takes no memory.
    pub fn empty(alloc: Global) -> Chars
        ensures { result ≡ [] }
    {
        Chars {
            chars: Vec::new(alloc),
        }
    }

    /// A copy of the characters.
    pub fn of(alloc: Global, chars: &[char]) -> Result<Chars, AllocError>
        ensures { IfOk result (λ c. c ≡ chars.now) }
    {
        Ok(Chars {
            chars: Vec::from_slice(alloc, chars)?,
        })
    }

    /// The text of these characters. It takes no memory.
    pub fn from_vec(chars: Vec<char>) -> Chars
        ensures { result ≡ chars.items }
    {
        Chars { chars }
    }

    /// The characters.
    pub fn as_slice(&self) -> &[char]
        ensures { result.now ≡ self.now }
    {
        self.chars.as_slice()
    }
}
