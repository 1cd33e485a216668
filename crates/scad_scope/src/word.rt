//! Names that are kept.

use std::alloc::{AllocError, Global};
use std::marker::Model;

/// The most bytes that lie in place. With their number they take no more room than the vector of a longer name.
const SHORT: usize = 30;

/// The bytes of a name: the first so many of a short one, or those of a longer one.
#[derive(Drop)]
enum Bytes {
    Short(u8, [u8; SHORT]),
    Long(Vec<u8>),
}

/// A name that is kept, seen by contracts as its bytes. Only a long one takes memory of its own.
#[derive(Drop)]
pub struct Word {
    bytes: Bytes,
}

impl Model for Word {
    ghost use Rattle.std.specs.Prelude.{ℕ, List};

    ghost Value = { List ℕ };

    ghost use Rattle.scad_scope.specs.Words.{IsWithin, bytes_in};

    ghost view = { λ w. bytes_in w.bytes };

    ghost invariant = { λ w. IsWithin w.bytes };
}

impl Word {
    ghost use Rattle.std.specs.Prelude.{◌≡◌, IfOk};

    /// The word of a name.
    pub fn of(alloc: Global, name: &[u8]) -> Result<Word, AllocError>
        ensures { IfOk result (λ w. w ≡ name.now) }
    {
        let count = name.len();
        if SHORT < count {
            let bytes = Bytes::Long(Vec::from_slice(alloc, name)?);
            return Ok(Word { bytes });
        }
        let mut short = [0; SHORT];
        short[..count].copy_from_slice(name);
        Ok(Word {
            bytes: Bytes::Short(count as u8, short),
        })
    }

    /// The name.
    pub fn as_slice(&self) -> &[u8]
        ensures { result.now ≡ self.now }
    {
        match &self.bytes {
            Bytes::Short(count, short) => &short[..*count as usize],
            Bytes::Long(all) => all.as_slice(),
        }
    }
}
