//! The marks before a statement, and the name that a call begins with.

ghost use Rattle.std.specs.Prelude.{◌≡◌, true, false, Some, None, IfOk};
ghost use Rattle.scad_grammar.specs.Lists.{no_marks, starred, percented, hashed};
ghost use Rattle.scad_grammar.specs.StatementSteps.{callee_kind, callee};
ghost use Rattle.scad_parse.specs.ReadingStatements.{marks_of, begins_with_mark, with_first_mark, callee_here};
ghost use Rattle.scad_parse.specs.ReadingStatements.{marks_here};
ghost use Rattle.scad_parse.specs.Standing.{Reads};
ghost use Rattle.scad_lex.specs.declared.token.TokenKind.TheVariants.{Key as KeyKind};

use crate::fault::Fault;
use crate::front::{begins_with, behind, place};
use crate::reader::{Reader, Word};
use scad_fault::Text;
use scad_lex::{Key, Sign, Token, TokenKind};
use std::alloc::{AllocError, Global};

/// The marks before a statement: `*`, `%`, `#`.
#[derive(Clone, Copy)]
pub(crate) struct Marked {
    pub(crate) star: bool,
    pub(crate) percent: bool,
    pub(crate) hash: bool,
}

pub(crate) fn unmarked() -> Marked
    ensures { marks_of result ≡ no_marks }
{
    Marked {
        star: false,
        percent: false,
        hash: false,
    }
}

pub(crate) fn starred(marks: Marked) -> Marked
    ensures { marks_of result ≡ starred (marks_of marks) }
{
    Marked {
        star: true,
        ..marks
    }
}

pub(crate) fn percented(marks: Marked) -> Marked
    ensures { marks_of result ≡ percented (marks_of marks) }
{
    Marked {
        percent: true,
        ..marks
    }
}

pub(crate) fn hashed(marks: Marked) -> Marked
    ensures { marks_of result ≡ hashed (marks_of marks) }
{
    Marked {
        hash: true,
        ..marks
    }
}

/// The tokens begin with a mark.
// mark = "*" | "%" | "#"
fn is_mark(ts: &[Token]) -> bool
    ensures { result ≡ begins_with_mark ts.now }
{
    if begins_with(Sign::Star, ts) {
        true
    } else if begins_with(Sign::Percent, ts) {
        true
    } else {
        begins_with(Sign::Hash, ts)
    }
}

/// The marks with one more, where the tokens begin with it.
fn with_mark(marks: Marked, ts: &[Token]) -> Marked
    ensures { marks_of result ≡ with_first_mark (marks_of marks) ts.now }
{
    if begins_with(Sign::Star, ts) {
        starred(marks)
    } else if begins_with(Sign::Percent, ts) {
        percented(marks)
    } else {
        hashed(marks)
    }
}

/// The keywords that a statement may call.
fn callee_key(alloc: Global, key: Key) -> Result<Option<Text>, AllocError>
    ensures { IfOk result (λ name. name ≡ callee_kind (KeyKind key)) }
{
    match key {
        Key::For => Ok(Some(Text::of(alloc, b"for")?)),
        Key::Let => Ok(Some(Text::of(alloc, b"let")?)),
        Key::Echo => Ok(Some(Text::of(alloc, b"echo")?)),
        Key::Assert => Ok(Some(Text::of(alloc, b"assert")?)),
        _ => Ok(None),
    }
}

fn callee_kind(alloc: Global, kind: &TokenKind) -> Result<Option<Text>, AllocError>
    ensures { IfOk result (λ name. name ≡ callee_kind kind.now) }
{
    match kind {
        TokenKind::Word(word) => Ok(Some(Text::of(alloc, word.as_slice())?)),
        TokenKind::Key(key) => Ok(callee_key(alloc, *key)?),
        TokenKind::Number(_) | TokenKind::Str(_) | TokenKind::Sign(_) => Ok(None),
    }
}

/// The name that a call which begins with this token calls.
// WORD | "for" | "let" | "echo" | "assert"
fn callee_name(alloc: Global, token: &Token) -> Result<Option<Text>, AllocError>
    ensures { IfOk result (λ name. name ≡ callee token.now) }
{
    callee_kind(alloc, &token.kind)
}

/// The name that is called, which is to come.
pub(crate) fn callee(reader: &mut Reader<'_>) -> Word
    ensures { Reads callee_here reader.old reader.new (result.at, result.name) }
{
    let at = place(reader.left, reader.end);
    let name = match reader.front() {
        Some(token) => callee_name(reader.alloc, token),
        None => Ok(None),
    };
    match name {
        Ok(Some(name)) => {
            reader.pass();
            Word { at, name }
        }
        Ok(None) => {
            reader.refuse();
            Word {
                at,
                name: Text::empty(reader.alloc),
            }
        }
        Err(_) => {
            reader.fails(Fault::Memory);
            Word {
                at,
                name: Text::empty(reader.alloc),
            }
        }
    }
}

/// The marks that come, with those so far. There is no limit on their number.
// mark*
pub(crate) fn marks(reader: &mut Reader<'_>, so_far: Marked) -> Marked
    ensures { Reads (λ e ts. marks_here (marks_of so_far) ts) reader.old reader.new (marks_of result) }
{
    let mut all = so_far;
    'marks: while is_mark(reader.left) {
        all = with_mark(all, reader.left);
        reader.left = behind(reader.left);
    }
    all
}
