//! Marks in bytes, by which lines and words are parted, digits, numbers in decimal, and texts that are written piece by piece.
//!
//! The contracts promise the place of the first mark, exactly the digits and the pieces, and that a text that is cut
//! back is the one before.
#![tactic(auto)]

mod number;
mod printer;

ghost use Rattle.std.specs.Prelude.{◌≡◌, ◌≤◌, length};
ghost use Rattle.std.specs.Char.{is_ascii_digit};
ghost use Rattle.std.specs.List.{list_all};
ghost use Rattle.text_scan.specs.Marks.{first_at};

pub use number::push_number;
pub use printer::Printer;

/// Where the first mark stands, or the length where there is none.
pub fn first_at(bytes: &[u8], mark: u8) -> usize
    ensures value { result ≡ first_at mark bytes.now }
    ensures within { result ≤ length bytes.now }
{
    for (i, b) in bytes.iter().enumerate() {
        if *b == mark {
            return i;
        }
    }
    bytes.len()
}

/// Whether each byte is a digit from `0` to `9`; of an empty text it is true.
pub fn all_digits(text: &[u8]) -> bool
    ensures { result ≡ list_all is_ascii_digit text.now }
{
    'bytes: for b in text {
        if !b.is_ascii_digit() {
            return false;
        }
    }
    true
}
