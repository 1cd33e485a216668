//! The words of a line behind its command.
ghost use Rattle.std.specs.Prelude.{◌≡◌, ◌≤◌, Option, Result};
ghost use Rattle.gcode_text.specs.Reading.{words, number};
ghost use Rattle.gcode_text.specs.Machine.{limited, ranged, places, with_value, with_word, with_words, nothing_given};

use crate::command::{Command, takes};
use crate::fault::GFault;
use crate::letters::{Given, is_limited};
use crate::number::number;
use crate::scan::{behind_first, byte_at, skip_spaces};
use text_scan::first_at;

/// The numbers that the words of line `n` name behind its command, or the first refusal.
pub(crate) fn with_words(n: u32, command: Command, text: &[u8]) -> Result<Given, GFault>
    ensures { result ≡ with_words limited n command (words text.now) nothing_given }
{
    let mut given = Given::nothing();
    let mut rest = skip_spaces(text);
    'words: while rest.len() > 0 {
        let len = first_at(rest, b' ');
        given = match with_word(n, command, &rest[..len], given) {
            Ok(next) => next,
            Err(fault) => return Err(fault),
        };
        rest = skip_spaces(&rest[len..]);
    }
    Ok(given)
}

#[tactic(auto, unfolding(crate::specs::Machine::with_word))]
fn with_word(n: u32, command: Command, word: &[u8], given: Given) -> Result<Given, GFault>
    ensures { result ≡ with_word limited n command word.now given }
{
    let letter = byte_at(word, 0);
    if takes(command, letter) && !given.has(letter) {
        with_value(n, command, letter, behind_first(word), given)
    } else {
        Err(GFault::UnknownWord(n))
    }
}

#[tactic(auto, using(crate::proofs::Numbers::ranges))]
fn with_value(
    n: u32,
    command: Command,
    letter: u8,
    text: &[u8],
    given: Given,
) -> Result<Given, GFault>
    ensures { result ≡ with_value limited n command letter text.now given }
{
    match command {
        Command::Home => at_home(n, letter, text, given),
        Command::Drive | Command::Set | Command::Plain => {
            ranged(n, letter, number(places(letter), text), given)
        }
    }
}

fn at_home(n: u32, letter: u8, text: &[u8], given: Given) -> Result<Given, GFault>
    ensures { result ≡ with_value limited n Command.Home letter text.now given }
{
    if text.is_empty() {
        Ok(given.with(letter, 0))
    } else {
        Err(GFault::UnknownWord(n))
    }
}

fn ranged(n: u32, letter: u8, number: Option<i64>, given: Given) -> Result<Given, GFault>
    ensures { result ≡ ranged limited n letter given number }
{
    match number {
        Some(z) => {
            if is_limited(letter, z) {
                Ok(given.with(letter, z))
            } else {
                Err(GFault::BadNumber(n))
            }
        }
        None => Err(GFault::BadNumber(n)),
    }
}

fn places(letter: u8) -> u32
    ensures value { result ≡ places letter }
    ensures small { result ≤ 5 }
{
    if letter == b'X' || letter == b'Y' || letter == b'Z' {
        3
    } else {
        5
    }
}
