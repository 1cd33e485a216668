//! The text of a number.
ghost use Rattle.std.specs.Prelude.{◌≡◌, ◌<◌, ◌≤◌, ◌+◌, ℕ, List, [], ◌∷◌, ◌++◌, length, take};
ghost use Rattle.std.specs.Fmt.{decimal};
ghost use Rattle.scad_num.specs.Number.{one, most};
ghost use Rattle.scad_num.specs.Text.{decimals_of, fraction_text, size_text, number_text};

use crate::fixed_point::{Num, ONE_PART};
use itoa::Buffer;
use std::marker::Model;

/// The text of a number, which takes no memory: its bytes, all of them ASCII.
#[derive(Drop)]
pub struct NumText {
    /// A sign, ten digits, a point and six decimals: no number's text is longer.
    bytes: [u8; 18],
    count: usize,
}

impl Model for NumText {
    ghost Value = { List ℕ };

    ghost view = { λ t. take t.count t.bytes };

    ghost invariant = { λ t. t.count ≤ 18 };
}

impl NumText {
    fn new() -> NumText
        ensures { result ≡ [] }
    {
        NumText {
            bytes: [0; 18],
            count: 0,
        }
    }

    fn push(&mut self, byte: u8)
        requires { length self.old < 18 }
        ensures { self.new ≡ self.old ++ byte ∷ [] }
    {
        self.bytes[self.count] = byte;
        self.count += 1;
    }

    fn extend_from_slice(&mut self, more: &[u8])
        requires { length self.old + length more.now ≤ 18 }
        ensures { self.new ≡ self.old ++ more.now }
    {
        let end = self.count + more.len();
        self.bytes[self.count..end].copy_from_slice(more);
        self.count = end;
    }

    /// The text's bytes.
    pub fn as_slice(&self) -> &[u8]
        ensures { result.now ≡ self.now }
    {
        &self.bytes[..self.count]
    }
}

impl Num {
    /// The number's text: its whole part in decimal, and where it isn't whole a point and its decimals
    /// without ending zeros.
    pub fn text(self) -> NumText
        ensures { result ≡ number_text self }
    {
        let mut digits = NumText::new();
        let millionths = self.millionths();
        if millionths < 0 {
            digits.push(b'-');
        }
        push_size(&mut digits, millionths.unsigned_abs());
        digits
    }
}

fn push_size(out: &mut NumText, millionths: u64)
    requires room { length out.old ≤ 1 }
    requires range { millionths ≤ most }
    ensures { out.new ≡ out.old ++ size_text millionths }
{
    push_whole(out, millionths / ONE_PART);
    push_fraction(out, millionths % ONE_PART);
}

#[tactic(auto, using(crate::proofs::Decimals::whole_digits))]
fn push_whole(out: &mut NumText, n: u64)
    requires room { length out.old ≤ 1 }
    requires range { n < 10000000000 }
    ensures digits { out.new ≡ out.old ++ decimal n }
    ensures length { length out.new ≤ 11 }
{
    out.extend_from_slice(Buffer::new().format(n).as_bytes());
}

fn push_fraction(out: &mut NumText, parts: u64)
    requires room { length out.old ≤ 11 }
    requires range { parts < one }
    ensures { out.new ≡ out.old ++ fraction_text parts }
{
    if parts > 0 {
        out.push(b'.');
        push_decimals(out, 6, parts);
    }
}

fn push_decimals(out: &mut NumText, places: u32, parts: u64)
    requires room { length out.old + places ≤ 18 }
    requires range { parts < one }
    ensures { out.new ≡ out.old ++ decimals_of places parts }
{
    if places > 0 && parts > 0 {
        out.push(b'0' + (parts * 10 / ONE_PART) as u8);
        push_decimals(out, places - 1, parts * 10 % ONE_PART);
    }
}
