//! Keywords.

ghost use Rattle.std.specs.Prelude.{◌≡◌, IsTrue};
ghost use Rattle.scad_table.specs.Table.{entries, ascends};
ghost use Rattle.scad_lex.specs.Keys.{key_of, key_table, numbered_key};

use crate::token::Key;
use scad_table::{Row, find};

const KEYS: [Row; 14] = [
    Row {
        name: "assert",
        id: 0,
    },
    Row {
        name: "each",
        id: 1,
    },
    Row {
        name: "echo",
        id: 2,
    },
    Row {
        name: "else",
        id: 3,
    },
    Row {
        name: "false",
        id: 4,
    },
    Row { name: "for", id: 5 },
    Row {
        name: "function",
        id: 6,
    },
    Row { name: "if", id: 7 },
    Row {
        name: "include",
        id: 8,
    },
    Row { name: "let", id: 9 },
    Row {
        name: "module",
        id: 10,
    },
    Row {
        name: "true",
        id: 11,
    },
    Row {
        name: "undef",
        id: 12,
    },
    Row {
        name: "use",
        id: 13,
    },
];

/// The keywords in byte order.
fn keys() -> &'static [Row]
    ensures ascends { IsTrue (ascends (entries result.now)) }
    ensures entries { entries result.now ≡ key_table }
{
    &KEYS
}

#[tactic(auto, unfolding(crate::specs::Keys::numbered_key))]
fn numbered_key(number: u16) -> Option<Key>
    ensures { result ≡ numbered_key number }
{
    match number {
        0 => Some(Key::Assert),
        1 => Some(Key::Each),
        2 => Some(Key::Echo),
        3 => Some(Key::Else),
        4 => Some(Key::False),
        5 => Some(Key::For),
        6 => Some(Key::Function),
        7 => Some(Key::If),
        8 => Some(Key::Include),
        9 => Some(Key::Let),
        10 => Some(Key::Module),
        11 => Some(Key::True),
        12 => Some(Key::Undef),
        13 => Some(Key::Use),
        _ => None,
    }
}

/// The keyword that the word is.
#[tactic(auto, unfolding(crate::specs::Keys::key_of))]
pub(crate) fn key_of(word: &[u8]) -> Option<Key>
    ensures { result ≡ key_of word.now }
{
    numbered_key(find(keys(), word)?)
}
