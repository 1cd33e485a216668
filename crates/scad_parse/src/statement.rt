//! Statements, where definitions may stand and where they may not, and groups of them.

ghost use Rattle.scad_ast.specs.Scope.{items};
ghost use Rattle.scad_grammar.specs.StatementRules.{statement_of};
ghost use Rattle.scad_parse.specs.ReadingStatements.{below_statements, statement_rules_at, scope_seen, definition_at};
ghost use Rattle.scad_parse.specs.ReadingStatements.{word_at};
ghost use Rattle.scad_parse.specs.Standing.{Reads};

use crate::definition::{function, module, pushed};
use crate::expression::closed;
use crate::instance::{Before, call, first};
use crate::mark::unmarked;
use crate::reader::{Reader, Word};
use scad_ast::{Item, Scope};
use scad_lex::{Key, Sign};

// stmt = ";" | "{" stmt* "}" | assign | module | function | inst
// body = ";" | "{" body* "}" | assign | inst
// Where definitions may not stand, it is a body.
#[cycle(statement)]
pub(crate) fn statement(
    reader: &mut Reader<'_>,
    definitions: bool,
    scope: Scope,
    room: u32,
) -> Scope
    ensures { Reads (λ e ts. statement_of e (below_statements e room) definitions (items scope.items) ts)
        reader.old reader.new (scope_seen result) }
{
    if reader.takes(Sign::Semicolon) {
        return scope;
    }
    if let Some(open) = reader.opens(Sign::OpenCurly, room) {
        return group(reader, definitions, scope, open.room);
    }
    if reader.begins_with_word() {
        return worded(reader, scope, room);
    }
    if definitions {
        return definition(reader, scope, room);
    }
    first(reader, scope, room)
}

// stmt* "}" or body* "}", behind the "{"
#[cycle(statement)]
pub(crate) fn group(reader: &mut Reader<'_>, definitions: bool, scope: Scope, room: u32) -> Scope
    ensures { Reads (λ e ts. (statement_rules_at e room).group definitions (items scope.items) ts)
        reader.old reader.new (scope_seen result) }
{
    let mut all = scope;
    'statements: while reader.lacks(Sign::CloseCurly) {
        all = statement(reader, definitions, all, room);
    }
    reader.pass();
    all
}

// assign | a call, which begins with a WORD
#[cycle(statement)]
fn worded(reader: &mut Reader<'_>, scope: Scope, room: u32) -> Scope
    ensures { Reads (λ e ts. word_at e (below_statements e room) (items scope.items) ts)
        reader.old reader.new (scope_seen result) }
{
    let word = reader.word();
    let Some(inner) = reader.deeper(word.at, room) else {
        return scope;
    };
    word_behind(reader, word, scope, inner)
}

// assign = WORD "=" expr ";", or a call, behind the WORD
#[cycle(statement)]
fn word_behind(reader: &mut Reader<'_>, word: Word, scope: Scope, room: u32) -> Scope
    ensures { Reads (λ e ts. (statement_rules_at e room).word_behind word.at word.name (items scope.items) ts)
        reader.old reader.new (scope_seen result) }
{
    if reader.takes(Sign::Assign) {
        let value = closed(reader, Sign::Semicolon, room);
        return pushed(reader, scope, Item::Assign(word.name, value, word.at));
    }
    let marks = unmarked();
    call(reader, Before { marks, scope }, word, room)
}

// module | function | inst
#[cycle(statement)]
fn definition(reader: &mut Reader<'_>, scope: Scope, room: u32) -> Scope
    ensures { Reads (λ e ts. definition_at e (below_statements e room) (items scope.items) ts)
        reader.old reader.new (scope_seen result) }
{
    if let Some(open) = reader.opens_key(Key::Module, room) {
        return module(reader, scope, open);
    }
    if let Some(open) = reader.opens_key(Key::Function, room) {
        return function(reader, scope, open);
    }
    first(reader, scope, room)
}
