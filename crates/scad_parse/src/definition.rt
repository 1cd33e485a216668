//! Parameters, and the definitions of modules and functions.

ghost use Rattle.std.specs.Prelude.{[]};
ghost use Rattle.scad_ast.specs.Scope.{item_of, items, parameter};
ghost use Rattle.scad_grammar.specs.Lists.{with_item};
ghost use Rattle.scad_grammar.specs.Rules.{in_round_of};
ghost use Rattle.scad_parse.specs.Reading.{below};
ghost use Rattle.scad_parse.specs.ReadingStatements.{below_statements, statement_rules_at, scope_seen};
ghost use Rattle.scad_parse.specs.ReadingStatements.{parameters_seen, heading_seen, heading_read, parameter_of};
ghost use Rattle.scad_parse.specs.ReadingStatements.{default_of, default_seen};
ghost use Rattle.scad_parse.specs.Standing.{Reads, nothing_read};

use crate::expression::{closed, expression};
use crate::reader::{Open, Reader};
use crate::statement::statement;
use scad_ast::{Expr, Item, Param, Params, Scope};
use scad_fault::Text;
use scad_lex::Sign;

/// The scope with one more item.
pub(crate) fn pushed(reader: &mut Reader<'_>, scope: Scope, item: Item) -> Scope
    ensures { Reads (nothing_read (with_item (items scope.items) (item_of item))) reader.old reader.new (scope_seen result) }
{
    let mut all = scope;
    reader.push_lone(&mut all, item);
    all
}

// WORD "(" params ")" stmt, behind the "module"
#[cycle(statement)]
pub(crate) fn module(reader: &mut Reader<'_>, scope: Scope, open: Open) -> Scope
    ensures { Reads (λ e ts. (statement_rules_at e «open».room).module_behind «open».at (items scope.items) ts)
        reader.old reader.new (scope_seen result) }
{
    let head = heading(reader, open.room);
    let none = Scope::new(reader.alloc);
    let mut body = statement(reader, true, none, open.room);
    body.shrink_to_fit();
    pushed(
        reader,
        scope,
        Item::Module(head.name, head.params, body, open.at),
    )
}

// WORD "(" params ")" "=" expr ";", behind the "function"
pub(crate) fn function(reader: &mut Reader<'_>, scope: Scope, open: Open) -> Scope
    ensures { Reads (λ e ts. (statement_rules_at e «open».room).function_behind «open».at (items scope.items) ts)
        reader.old reader.new (scope_seen result) }
{
    let head = heading(reader, open.room);
    reader.expect(Sign::Assign);
    let body = closed(reader, Sign::Semicolon, open.room);
    pushed(
        reader,
        scope,
        Item::Function(head.name, head.params, body, open.at),
    )
}

/// The name and the parameters of a definition.
#[derive(Drop)]
struct Signature {
    name: Text,
    params: Params,
}

// WORD "(" params ")"
fn heading(reader: &mut Reader<'_>, room: u32) -> Signature
    ensures { Reads (λ e ts. heading_read e (below_statements e room) ts) reader.old reader.new (heading_seen result) }
{
    let word = reader.word();
    let params = round_parameters(reader, room);
    Signature {
        name: word.name,
        params,
    }
}

// "(" params ")"
fn round_parameters(reader: &mut Reader<'_>, room: u32) -> Params
    ensures { Reads (λ e ts. in_round_of e (below_statements e room) (λ r us. r.params_closed us) ts)
        reader.old reader.new (parameters_seen result) }
{
    reader.needs(Sign::OpenRound);
    let Some(open) = reader.open(room) else {
        return Params::new(reader.alloc);
    };
    parameters(reader, open.room)
}

// params = list of WORD ["=" expr], and ")"
fn parameters(reader: &mut Reader<'_>, room: u32) -> Params
    ensures { Reads (λ e ts. (statement_rules_at e room).params_closed ts) reader.old reader.new
        (parameters_seen result) }
{
    let mut params = Params::new(reader.alloc);
    'members: while reader.lacks(Sign::CloseRound) {
        let param = named_parameter(reader, room);
        reader.push_lone(&mut params, param);
        reader.behind_member(Sign::CloseRound);
    }
    reader.pass();
    params.shrink_to_fit();
    params
}

// WORD ["=" expr]
fn named_parameter(reader: &mut Reader<'_>, room: u32) -> Param
    ensures { Reads (λ e ts. parameter_of e (below e room) ts) reader.old reader.new (parameter result) }
{
    let word = reader.word();
    let default = default_of(reader, room);
    Param {
        name: word.name,
        default,
    }
}

// ["=" expr] behind a parameter's word
fn default_of(reader: &mut Reader<'_>, room: u32) -> Option<Expr>
    ensures { Reads (λ e ts. default_of e (below e room) ts) reader.old reader.new (default_seen result) }
{
    if !reader.takes(Sign::Assign) {
        return None;
    }
    Some(expression(reader, room))
}
