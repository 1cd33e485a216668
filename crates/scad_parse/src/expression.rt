//! Expressions. Each function reads what its rule derives from where the reader stands, where so many more constructs
//! may open, and gives the tree.

ghost use Rattle.scad_ast.specs.View.{expression_of};
ghost use Rattle.scad_grammar.specs.Rules.{expr_of, choice_of, expr_to};
ghost use Rattle.scad_parse.specs.Reading.{below, rules_at, keyed, bound_by};
ghost use Rattle.scad_parse.specs.Standing.{Reads};

use crate::argument::round_arguments;
use crate::fault::Form;
use crate::node;
use crate::node::Binder;
use crate::operand::operand;
use crate::operator::LINES;
use crate::reader::{Open, Reader};
use scad_ast::Expr;
use scad_lex::{Key, Sign};

// expr = "let" "(" args ")" expr | "assert" "(" args ")" expr | "echo" "(" args ")" expr
//      | or ["?" expr ":" expr]
#[cycle(expression)]
pub(crate) fn expression(reader: &mut Reader<'_>, room: u32) -> Expr
    ensures { Reads (λ e ts. expr_of e (below e room) ts) reader.old reader.new (expression_of result) }
{
    reader.leaves_out(Key::Function, Form::Function);
    if let Some(open) = reader.opens_key(Key::Let, room) {
        return bound(reader, Binder::Let, open);
    }
    if let Some(open) = reader.opens_key(Key::Assert, room) {
        return bound(reader, Binder::Assert, open);
    }
    if let Some(open) = reader.opens_key(Key::Echo, room) {
        return bound(reader, Binder::Echo, open);
    }
    let test = operand(reader, LINES, room);
    choice(reader, test, room)
}

// ("let" | "assert" | "echo") "(" args ")" expr, behind the keyword
#[cycle(expression)]
fn bound(reader: &mut Reader<'_>, binder: Binder, open: Open) -> Expr
    ensures { Reads (λ e ts. bound_by (keyed binder) «open».at (rules_at e «open».room) ts) reader.old reader.new
        (expression_of result) }
{
    let args = round_arguments(reader, open.room);
    let body = expression(reader, open.room);
    node::bound(reader, open.at, binder, args, body)
}

// ["?" expr ":" expr], behind the test
#[cycle(expression)]
fn choice(reader: &mut Reader<'_>, test: Expr, room: u32) -> Expr
    ensures { Reads (λ e ts. choice_of e (below e room) (expression_of test) ts) reader.old reader.new
        (expression_of result) }
{
    let Some(open) = reader.opens(Sign::Question, room) else {
        return test;
    };
    let chosen = closed(reader, Sign::Colon, open.room);
    let other = expression(reader, open.room);
    node::choose(reader, open.at, test, chosen, other)
}

// expr, and behind it the sign
#[cycle(expression)]
pub(crate) fn closed(reader: &mut Reader<'_>, sign: Sign, room: u32) -> Expr
    ensures { Reads (λ e ts. expr_to e sign (expr_of e (below e room)) ts) reader.old reader.new
        (expression_of result) }
{
    let value = expression(reader, room);
    reader.expect(sign);
    value
}

// "(" expr ")"
#[cycle(expression)]
pub(crate) fn round_expression(reader: &mut Reader<'_>, room: u32) -> Expr
    ensures { Reads (λ e ts. (rules_at e room).round_expr ts) reader.old reader.new (expression_of result) }
{
    reader.needs(Sign::OpenRound);
    let Some(open) = reader.open(room) else {
        return node::nothing(reader.end);
    };
    closed(reader, Sign::CloseRound, open.room)
}
