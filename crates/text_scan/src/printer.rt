//! A text that is written piece by piece, and whether there was memory for it.
ghost use Rattle.std.specs.Prelude.{◌≡◌, [], ◌∷◌, take, OnOk, OnErr, IfOk};
ghost use Rattle.text_scan.specs.Printing.{Holds, Adds};

use itoa::{Buffer, Integer};
use std::alloc::{AllocError, Global};
use std::marker::Model;
use std::mem;

/// The text so far. Where memory is wanting the printer remembers it, and what it adds is of no meaning from then on:
/// so what prints a part can't fail, and `finish` or `hand_back` tells at the end.
#[derive(Drop)]
pub struct Printer {
    text: Vec<u8>,
    is_whole: bool,
}

impl Model for Printer {
    ghost use Rattle.text_scan.specs.Printing.{Printed};

    ghost Value = { Printed };

    ghost view = { λ p. record { text = p.text.items; is_whole = p.is_whole } };
}

impl Printer {
    /// No text. It takes no memory.
    pub fn new(alloc: Global) -> Printer
        ensures { Holds [] result }
    {
        Printer {
            text: Vec::new(alloc),
            is_whole: true,
        }
    }

    /// Goes on behind a text, which it takes until `hand_back`.
    pub fn behind(text: &mut Vec<u8>) -> Printer
        ensures { Holds text.old.items result }
    {
        let nothing = Vec::new(*text.allocator());
        Printer {
            text: mem::replace(text, nothing),
            is_whole: true,
        }
    }

    /// Appends bytes.
    pub fn put(&mut self, bytes: &[u8])
        ensures { Adds bytes.now self.old self.new }
    {
        if self.text.extend_from_slice(bytes).is_err() {
            self.is_whole = false;
        }
    }

    /// Appends a byte.
    pub fn byte(&mut self, byte: u8)
        ensures { Adds (byte ∷ []) self.old self.new }
    {
        if self.text.push(byte).is_err() {
            self.is_whole = false;
        }
    }

    /// Appends a number in decimal, with `-` before a negative one.
    pub fn number<I: Integer>(&mut self, n: I)
        ensures { Adds (I.text n) self.old self.new }
    {
        self.put(Buffer::new().format(n).as_bytes());
    }

    /// The text, where there was memory for all of it.
    pub fn finish(self) -> Result<Vec<u8>, AllocError>
        ensures { IfOk result (λ text. Holds text.items self) }
    {
        if self.is_whole {
            Ok(self.text)
        } else {
            Err(AllocError)
        }
    }

    /// Hands back the text, and only the first `kept` bytes where there wasn't memory for all of it.
    pub fn hand_back(self, out: &mut Vec<u8>, kept: usize) -> Result<(), AllocError>
        ensures ok { OnOk result (Holds out.new.items self) }
        ensures err { OnErr result (out.new.items ≡ take kept self.text) }
    {
        *out = self.text;
        if self.is_whole {
            Ok(())
        } else {
            out.truncate(kept);
            Err(AllocError)
        }
    }
}
