//! What a statement runs: marks, and a call with its child or an `if`.

ghost use Rattle.scad_ast.specs.Tree.{choice, call_of};
ghost use Rattle.scad_ast.specs.View.{expression_of, arguments};
ghost use Rattle.scad_ast.specs.Scope.{items, body_of};
ghost use Rattle.scad_grammar.specs.Lists.{with_statement};
ghost use Rattle.scad_grammar.specs.StatementRules.{child_of};
ghost use Rattle.scad_parse.specs.ReadingStatements.{below_statements, statement_rules_at, scope_seen, marks_of};
ghost use Rattle.scad_parse.specs.ReadingStatements.{first_at};
ghost use Rattle.scad_parse.specs.ReadingStatements.{unmarked_of, other_of, call_at};
ghost use Rattle.scad_parse.specs.Reading.{rules_at};
ghost use Rattle.scad_parse.specs.Standing.{Reads, nothing_read};

use crate::argument::round_arguments;
use crate::definition::pushed;
use crate::expression::round_expression;
use crate::fault::Form;
use crate::mark::{Marked, callee, hashed, marks, percented, starred, unmarked};
use crate::reader::{Reader, Word};
use crate::statement::group;
use scad_ast::{Args, Expr, Item, Scope, Stmt, StmtBody};
use scad_fault::Place;
use scad_lex::{Key, Sign};

/// What stands before a statement: its marks, and the scope that it joins.
#[derive(Drop)]
pub(crate) struct Before {
    pub(crate) marks: Marked,
    pub(crate) scope: Scope,
}

// inst = mark* (call child | "if" "(" expr ")" child ["else" child])
#[cycle(statement)]
pub(crate) fn first(reader: &mut Reader<'_>, scope: Scope, room: u32) -> Scope
    ensures { Reads (λ e ts. first_at e (below_statements e room) (items scope.items) ts)
        reader.old reader.new (scope_seen result) }
{
    let none = unmarked();
    reader.leaves_out(Key::Include, Form::Include);
    reader.leaves_out(Key::Use, Form::Use);
    if let Some(open) = reader.opens(Sign::Star, room) {
        return marked(reader, starred(none), scope, open.room);
    }
    if let Some(open) = reader.opens(Sign::Percent, room) {
        return marked(reader, percented(none), scope, open.room);
    }
    if let Some(open) = reader.opens(Sign::Hash, room) {
        return marked(reader, hashed(none), scope, open.room);
    }
    reader.leaves_out_sign(Sign::Bang, Form::Root);
    if let Some(open) = reader.opens_key(Key::If, room) {
        return choice(reader, open.at, Before { marks: none, scope }, open.room);
    }
    called_first(reader, scope, room)
}

// call child
#[cycle(statement)]
fn called_first(reader: &mut Reader<'_>, scope: Scope, room: u32) -> Scope
    ensures { Reads (λ e ts. call_at e (below_statements e room) (items scope.items) ts)
        reader.old reader.new (scope_seen result) }
{
    let word = callee(reader);
    let Some(inner) = reader.deeper(word.at, room) else {
        return scope;
    };
    let marks = unmarked();
    call(reader, Before { marks, scope }, word, inner)
}

// mark* (call child | "if" "(" expr ")" child ["else" child]), behind its first mark
#[cycle(statement)]
fn marked(reader: &mut Reader<'_>, so_far: Marked, scope: Scope, room: u32) -> Scope
    ensures { Reads (λ e ts. (statement_rules_at e room).marked (marks_of so_far) (items scope.items) ts)
        reader.old reader.new (scope_seen result) }
{
    let marks = marks(reader, so_far);
    run(reader, Before { marks, scope }, room)
}

// call child | "if" "(" expr ")" child ["else" child], behind its marks
#[cycle(statement)]
fn run(reader: &mut Reader<'_>, before: Before, room: u32) -> Scope
    ensures { Reads (λ e ts. unmarked_of e (rules_at e room) (below_statements e room) (marks_of before.marks)
        (items before.scope.items) ts) reader.old reader.new (scope_seen result) }
{
    reader.leaves_out_sign(Sign::Bang, Form::Root);
    if let Some(at) = reader.takes_key(Key::If) {
        return choice(reader, at, before, room);
    }
    let word = callee(reader);
    call(reader, before, word, room)
}

/// The scope with the statement, which is dropped where it is marked `*`.
fn kept(reader: &mut Reader<'_>, before: Before, at: Place, body: StmtBody) -> Scope
    ensures { Reads (nothing_read (with_statement (marks_of before.marks) (items before.scope.items)
        (body_of at before.marks.percent before.marks.hash body))) reader.old reader.new (scope_seen result) }
{
    let Before { marks, scope } = before;
    if marks.star {
        drop(body);
        return scope;
    }
    pushed(
        reader,
        scope,
        Item::Run(Stmt {
            at,
            percent: marks.percent,
            hash: marks.hash,
            body,
        }),
    )
}

/// The scope with a call.
fn called(reader: &mut Reader<'_>, before: Before, word: Word, args: Args, inside: Scope) -> Scope
    ensures { Reads (nothing_read (with_statement (marks_of before.marks) (items before.scope.items)
        (call_of word.at before.marks.percent before.marks.hash word.name (arguments args.items)
        (items inside.items)))) reader.old reader.new (scope_seen result) }
{
    kept(
        reader,
        before,
        word.at,
        StmtBody::Call(word.name, args, inside),
    )
}

/// The scope with an `if`.
fn chosen(
    reader: &mut Reader<'_>,
    before: Before,
    at: Place,
    test: Expr,
    held: Scope,
    other: Scope,
) -> Scope
    ensures { Reads (nothing_read (with_statement (marks_of before.marks) (items before.scope.items)
        (choice at before.marks.percent before.marks.hash (expression_of test) (items held.items)
        (items other.items)))) reader.old reader.new (scope_seen result) }
{
    kept(reader, before, at, StmtBody::If(test, held, other))
}

// "(" args ")" child, behind the name that is called
#[cycle(statement)]
pub(crate) fn call(reader: &mut Reader<'_>, before: Before, word: Word, room: u32) -> Scope
    ensures { Reads (λ e ts. (statement_rules_at e room).call_behind word.at (marks_of before.marks) word.name
        (items before.scope.items) ts) reader.old reader.new (scope_seen result) }
{
    let args = round_arguments(reader, room);
    let inside = child(reader, room);
    called(reader, before, word, args, inside)
}

// "(" expr ")" child ["else" child], behind the "if"
#[cycle(statement)]
fn choice(reader: &mut Reader<'_>, at: Place, before: Before, room: u32) -> Scope
    ensures { Reads (λ e ts. (statement_rules_at e room).choice_behind at (marks_of before.marks)
        (items before.scope.items) ts) reader.old reader.new (scope_seen result) }
{
    let test = round_expression(reader, room);
    let held = child(reader, room);
    let other = otherwise(reader, room);
    chosen(reader, before, at, test, held, other)
}

// ["else" child]
#[cycle(statement)]
fn otherwise(reader: &mut Reader<'_>, room: u32) -> Scope
    ensures { Reads (λ e ts. other_of e (below_statements e room) ts) reader.old reader.new (scope_seen result) }
{
    let Some(_) = reader.takes_key(Key::Else) else {
        return Scope::new(reader.alloc);
    };
    child(reader, room)
}

// child = ";" | "{" body* "}" | inst
#[cycle(statement)]
fn child(reader: &mut Reader<'_>, room: u32) -> Scope
    ensures { Reads (λ e ts. child_of e (below_statements e room) ts) reader.old reader.new (scope_seen result) }
{
    let none = Scope::new(reader.alloc);
    if reader.takes(Sign::Semicolon) {
        return none;
    }
    if let Some(open) = reader.opens(Sign::OpenCurly, room) {
        let mut inside = group(reader, false, none, open.room);
        inside.shrink_to_fit();
        return inside;
    }
    first(reader, none, room)
}
