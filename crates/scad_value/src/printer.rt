//! Code points that are written piece by piece, and whether there was memory for them.

ghost use Rattle.std.specs.Prelude.{[], ◌∷◌, IfOk};
ghost use Rattle.text_scan.specs.Printing.{Holds, Adds};

use std::alloc::{AllocError, Global};
use std::marker::Model;

/// The code points so far. Where memory is wanting the printer remembers it, and what it adds is of no meaning from
/// then on: so what prints a part can't fail, and `finish` tells at the end.
#[derive(Drop)]
pub(crate) struct Printer {
    chars: Vec<char>,
    is_whole: bool,
}

impl Model for Printer {
    ghost use Rattle.text_scan.specs.Printing.{Printed};

    ghost Value = { Printed };

    ghost view = { λ p. record { text = p.chars.items; is_whole = p.is_whole } };
}

impl Printer {
    /// Nothing. It takes no memory.
    pub(crate) fn new(alloc: Global) -> Printer
        ensures { Holds [] result }
    {
        Printer {
            chars: Vec::new(alloc),
            is_whole: true,
        }
    }

    /// Appends a code point.
    pub(crate) fn put(&mut self, c: char)
        ensures { Adds (c ∷ []) self.old self.new }
    {
        if self.chars.push(c).is_err() {
            self.is_whole = false;
        }
    }

    /// Appends code points.
    pub(crate) fn chars(&mut self, chars: &[char])
        ensures { Adds chars.now self.old self.new }
    {
        if self.chars.extend_from_slice(chars).is_err() {
            self.is_whole = false;
        }
    }

    /// Appends ASCII text.
    pub(crate) fn ascii(&mut self, text: &[u8])
        ensures { Adds text.now self.old self.new }
    {
        'bytes: for b in text {
            self.put(*b as char);
        }
    }

    /// The code points, where there was memory for all of them.
    pub(crate) fn finish(self) -> Result<Vec<char>, AllocError>
        ensures { IfOk result (λ chars. Holds chars.items self) }
    {
        if self.is_whole {
            Ok(self.chars)
        } else {
            Err(AllocError)
        }
    }
}
