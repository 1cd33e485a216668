//! Numbers, each of which is its decimal text.
ghost use Rattle.std.specs.Prelude.{◌≡◌};
ghost use Rattle.cli_read.specs.Reading.{Gives, or_bad, if_count, count_of, if_coordinate, coordinate_of, direction_at, some_at};

use crate::fault::CliFault;
use itoa::Buffer;
use scad_geom::COORDINATE_LIMIT;
use std::str;

/// The number below 2^32 that the word is the text of.
pub fn count_of(word: &[u8]) -> Option<u32>
    ensures { result ≡ count_of word.now }
{
    match str::from_utf8(word) {
        Ok(text) => count_in(text),
        Err(_) => None,
    }
}

fn count_in(text: &str) -> Option<u32>
    ensures { result ≡ count_of text.now }
{
    match text.parse::<u32>() {
        Ok(n) => if_count(n, text.as_bytes()),
        Err(_) => None,
    }
}

fn if_count(n: u32, word: &[u8]) -> Option<u32>
    ensures { result ≡ if_count n word.now }
{
    if Buffer::new().format(n).as_bytes() == word {
        Some(n)
    } else {
        None
    }
}

/// The coordinate within reach that the word is the text of.
pub fn coordinate_of(word: &[u8]) -> Option<i32>
    ensures { result ≡ coordinate_of word.now }
{
    match str::from_utf8(word) {
        Ok(text) => coordinate_in(text),
        Err(_) => None,
    }
}

fn coordinate_in(text: &str) -> Option<i32>
    ensures { result ≡ coordinate_of text.now }
{
    match text.parse::<i32>() {
        Ok(z) => if_coordinate(z, text.as_bytes()),
        Err(_) => None,
    }
}

fn if_coordinate(z: i32, word: &[u8]) -> Option<i32>
    ensures { result ≡ if_coordinate z word.now }
{
    if Buffer::new().format(z).as_bytes() == word && z.unsigned_abs() <= COORDINATE_LIMIT {
        Some(z)
    } else {
        None
    }
}

/// The number that the word of line `n` is the text of.
pub fn count_at(n: u64, word: &[u8]) -> Result<u32, CliFault>
    ensures { Gives (or_bad n (count_of word.now)) (λ c. c) result }
{
    match count_of(word) {
        Some(count) => Ok(count),
        None => Err(CliFault::BadLine(n)),
    }
}

/// The coordinate that the word of line `n` is the text of.
pub fn coordinate_at(n: u64, word: &[u8]) -> Result<i32, CliFault>
    ensures { Gives (or_bad n (coordinate_of word.now)) (λ z. z) result }
{
    match coordinate_of(word) {
        Some(coordinate) => Ok(coordinate),
        None => Err(CliFault::BadLine(n)),
    }
}

/// The direction of an outline, 0 or 1.
pub fn direction_at(n: u64, word: &[u8]) -> Result<u32, CliFault>
    ensures { Gives (direction_at n word.now) (λ d. d) result }
{
    let direction = count_at(n, word)?;
    if direction <= 1 {
        Ok(direction)
    } else {
        Err(CliFault::BadLine(n))
    }
}

/// A number of hatches, which is 1 at least.
pub fn some_at(n: u64, word: &[u8]) -> Result<u32, CliFault>
    ensures { Gives (some_at n word.now) (λ c. c) result }
{
    let count = count_at(n, word)?;
    if 1 <= count {
        Ok(count)
    } else {
        Err(CliFault::BadLine(n))
    }
}
