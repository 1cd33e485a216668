//! All tokens of a text.

ghost use Rattle.std.specs.Prelude.{◌≡◌, ◌+◌, ◌-◌, ◌^◌, ◌<◌, ◌≤◌, length, take, drop, IfOk, IfErr};
ghost use Rattle.scad_lex.specs.Tokens.{after, tokens, tokens_from, onto, without_mark, Refuses};

use crate::bytes::{behind, first};
use crate::fault::LexFault;
use crate::front::{Front, front_of};
use crate::token::{Token, Tokens};
use scad_fault::Place;
use std::alloc::Global;

/// The place behind the bytes.
fn after(at: Place, bytes: &[u8]) -> Place
    requires line { at.line + length bytes.now < 2 ^ 32 }
    requires col { at.col + length bytes.now < 2 ^ 32 }
    ensures { result ≡ after at bytes.now }
{
    let mut place = at;
    'bytes: for b in bytes {
        if *b == b'\n' {
            place.line += 1;
            place.col = 1;
        } else {
            place.col += 1;
        }
    }
    place
}

fn without_mark(bytes: &[u8]) -> &[u8]
    ensures value { result.now ≡ without_mark bytes.now }
    ensures bound { length result.now ≤ length bytes.now }
{
    if bytes.starts_with(&[0xEF, 0xBB, 0xBF]) {
        behind(bytes, 3)
    } else {
        bytes
    }
}

/// Reads the piece that the bytes begin with, and gives its number of bytes. A token goes onto the list.
fn read_piece(
    alloc: Global,
    list: &mut Vec<Token>,
    at: Place,
    rest: &[u8],
) -> Result<usize, LexFault>
    requires some { 0 < length rest.now }
    requires line { at.line + length rest.now < 2 ^ 32 }
    requires col { at.col + length rest.now < 2 ^ 32 }
    ensures read { IfOk result (λ n. onto list.new.items (tokens_from 0 (after at (take n rest.now)) (drop n rest.now)) ≡ onto list.old.items (tokens_from 0 at rest.now)) }
    ensures bound { IfOk result (λ n. (0 < n) × (n ≤ length rest.now + 16)) }
    ensures refused { IfErr result (Refuses (tokens_from 0 at rest.now)) }
{
    match front_of(alloc, rest)? {
        Front::Gap(n) => Ok(n),
        Front::Cut(kind, n) => {
            list.push(Token { kind, at })?;
            Ok(n)
        }
        Front::Bad(n) => Err(LexFault::BadText(after(at, first(rest, n)))),
        Front::TooLarge => Err(LexFault::Range(at)),
    }
}

/// The tokens of a text with their places, or the first place at which it is refused. Each piece is read once.
pub fn lex(alloc: Global, bytes: &[u8]) -> Result<Tokens, LexFault>
    requires { length bytes.now < 2 ^ 32 - 1 }
    ensures found { IfOk result (λ found. tokens bytes.now ≡ Ok (found.list.items, found.end)) }
    ensures refused { IfErr result (Refuses (tokens bytes.now)) }
{
    let text = without_mark(bytes);
    let mut list = Vec::new(alloc);
    let mut at = Place::START;
    let mut done = 0usize;
    'pieces: while done < text.len() {
        let rest = behind(text, done);
        let len = match read_piece(alloc, &mut list, at, rest) {
            Ok(len) => len,
            Err(fault) => return Err(fault),
        };
        at = after(at, first(rest, len));
        done += len;
    }
    list.shrink_to_fit();
    Ok(Tokens { list, end: at })
}
