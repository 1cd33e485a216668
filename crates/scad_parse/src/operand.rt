//! The operands of an expression and the operators between, before and behind them.

ghost use Rattle.scad_ast.specs.View.{expression_of};
ghost use Rattle.scad_grammar.specs.Rules.{operand_of, links_of, unary_of, posts_of};
ghost use Rattle.scad_parse.specs.Reading.{below, rules_at, prefixed_by, chain_of};
ghost use Rattle.scad_parse.specs.Standing.{Reads};

use crate::expression::closed;
use crate::fault::Form;
use crate::node;
use crate::operator::{begins_with_operator, opens_operator};
use crate::primary::primary;
use crate::reader::{Open, Reader};
use scad_ast::{Expr, UnOp};
use scad_lex::Sign;

// or = and ("||" and)*            and = eq ("&&" eq)*
// eq = rel (("=="|"!=") rel)*     rel = add (("<"|"<="|">"|">=") add)*
// add = mul (("+"|"-") mul)*      mul = unary (("*"|"/"|"%") unary)*
// An operand of the so many tightest of these lines. Most stand alone, and no line is then gone through.
#[cycle(expression)]
pub(crate) fn operand(reader: &mut Reader<'_>, lines: u8, room: u32) -> Expr
    ensures { Reads (λ e ts. operand_of e (below e room) lines ts) reader.old reader.new (expression_of result) }
{
    let first = unary(reader, room);
    if !begins_with_operator(reader) {
        return first;
    }
    chain(reader, lines, first, room)
}

// (operator operand)* of the so many tightest lines one after the other, behind the first operand
#[cycle(expression)]
fn chain(reader: &mut Reader<'_>, lines: u8, first: Expr, room: u32) -> Expr
    ensures { Reads (λ e ts. chain_of (below e room) lines (expression_of first) ts) reader.old reader.new
        (expression_of result) }
{
    if lines == 0 {
        return first;
    }
    let line = lines - 1;
    let left = chain(reader, line, first, room);
    links(reader, line, left, room)
}

// (operator operand)*, behind the operands so far
#[cycle(expression)]
fn links(reader: &mut Reader<'_>, line: u8, left: Expr, room: u32) -> Expr
    ensures { Reads (λ e ts. links_of (below e room) line (expression_of left) ts) reader.old reader.new
        (expression_of result) }
{
    let Some(link) = opens_operator(reader, line, room) else {
        return left;
    };
    let right = operand(reader, line, link.open.room);
    let both = node::binary(reader, link.open.at, link.op, left, right);
    links(reader, line, both, link.open.room)
}

// unary = ("!"|"+"|"-") unary | post
#[cycle(expression)]
fn unary(reader: &mut Reader<'_>, room: u32) -> Expr
    ensures { Reads (λ e ts. unary_of e (below e room) ts) reader.old reader.new (expression_of result) }
{
    if let Some(open) = reader.opens(Sign::Bang, room) {
        return prefixed(reader, UnOp::Not, open);
    }
    if let Some(open) = reader.opens(Sign::Plus, room) {
        return prefixed(reader, UnOp::Plus, open);
    }
    if let Some(open) = reader.opens(Sign::Minus, room) {
        return prefixed(reader, UnOp::Minus, open);
    }
    let value = primary(reader, room);
    posts(reader, value, room)
}

// unary, behind a prefix operator
#[cycle(expression)]
fn prefixed(reader: &mut Reader<'_>, op: UnOp, open: Open) -> Expr
    ensures { Reads (λ e ts. prefixed_by op «open».at (rules_at e «open».room) ts) reader.old reader.new
        (expression_of result) }
{
    let operand = unary(reader, open.room);
    node::unary(reader, open.at, op, operand)
}

// ("[" expr "]" | "." WORD)*, behind the prim of a post
#[cycle(expression)]
fn posts(reader: &mut Reader<'_>, value: Expr, room: u32) -> Expr
    ensures { Reads (λ e ts. posts_of e (below e room) (expression_of value) ts) reader.old reader.new
        (expression_of result) }
{
    if let Some(open) = reader.opens(Sign::OpenSquare, room) {
        let i = indexed(reader, open);
        let whole = node::index(reader, open.at, value, i);
        return posts(reader, whole, open.room);
    }
    if let Some(open) = reader.opens(Sign::Dot, room) {
        let word = reader.word();
        let whole = node::member(reader, open.at, value, word.name);
        return posts(reader, whole, open.room);
    }
    reader.leaves_out_sign(Sign::Caret, Form::Power);
    value
}

// expr "]" behind the "[" of an index, which opens two constructs
#[cycle(expression)]
fn indexed(reader: &mut Reader<'_>, open: Open) -> Expr
    ensures { Reads (λ e ts. (rules_at e «open».room).indexed «open».at ts) reader.old reader.new
        (expression_of result) }
{
    let Some(inner) = reader.deeper(open.at, open.room) else {
        return node::nothing(open.at);
    };
    closed(reader, Sign::CloseSquare, inner)
}
