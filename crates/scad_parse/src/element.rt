//! The elements of vectors.

ghost use Rattle.scad_ast.specs.View.{expression_of, element_of};
ghost use Rattle.scad_grammar.specs.Rules.{elem_of, else_of, for_head_of};
ghost use Rattle.scad_parse.specs.Reading.{below, rules_at, round_head_of};
ghost use Rattle.scad_parse.specs.Heads.{head_of};
ghost use Rattle.scad_parse.specs.Standing.{Reads};

use crate::argument::{arguments, closed_arguments, round_arguments};
use crate::expression::{closed, expression, round_expression};
use crate::head::{Head, headed};
use crate::node;
use crate::reader::{Open, Reader};
use scad_ast::{Args, Elem, Expr};
use scad_lex::{Key, Sign};

// elem = comp | expr
#[cycle(expression)]
pub(crate) fn element(reader: &mut Reader<'_>, room: u32) -> Elem
    ensures { Reads (λ e ts. elem_of e (below e room) ts) reader.old reader.new (element_of result) }
{
    if let Some(open) = reader.opens_key(Key::For, room) {
        return for_element(reader, open);
    }
    if let Some(open) = reader.opens_key(Key::Each, room) {
        let elem = element(reader, open.room);
        return node::each(reader, open.at, elem);
    }
    if let Some(open) = reader.opens_key(Key::If, room) {
        let test = round_expression(reader, open.room);
        let held = element(reader, open.room);
        return otherwise(reader, test, held, open);
    }
    if let Some(open) = reader.opens_key(Key::Let, room) {
        let args = round_arguments(reader, open.room);
        let body = element(reader, open.room);
        return node::let_element(reader, open.at, args, body);
    }
    Elem::Item(expression(reader, room))
}

// ["else" elem], behind a test and the element that it holds
#[cycle(expression)]
fn otherwise(reader: &mut Reader<'_>, test: Expr, held: Elem, whole: Open) -> Elem
    ensures { Reads (λ e ts. else_of (below e whole.room) whole.at (expression_of test) (element_of held) ts)
        reader.old reader.new (element_of result) }
{
    let Some(open) = reader.opens_key(Key::Else, whole.room) else {
        return node::if_element(reader, whole.at, test, held);
    };
    let other = element(reader, open.room);
    node::if_else(reader, whole.at, test, held, other)
}

// "(" args ")" elem | "(" args ";" expr ";" args ")" elem, behind the "for"
#[cycle(expression)]
fn for_element(reader: &mut Reader<'_>, open: Open) -> Elem
    ensures { Reads (λ e ts. (rules_at e «open».room).for_behind «open».at ts) reader.old reader.new
        (element_of result) }
{
    let head = round_head(reader, open.room);
    let elem = element(reader, open.room);
    headed(reader, open.at, head, elem)
}

// "(" args ")" | "(" args ";" expr ";" args ")"
#[cycle(expression)]
fn round_head(reader: &mut Reader<'_>, room: u32) -> Head
    ensures { Reads (λ e ts. round_head_of e (below e room) ts) reader.old reader.new (head_of result) }
{
    reader.needs(Sign::OpenRound);
    let Some(open) = reader.open(room) else {
        return Head::All(Args::new(reader.alloc));
    };
    for_head(reader, open.room)
}

// args ")" | args ";" expr ";" args ")"
#[cycle(expression)]
fn for_head(reader: &mut Reader<'_>, room: u32) -> Head
    ensures { Reads (λ e ts. for_head_of e (below e room) ts) reader.old reader.new (head_of result) }
{
    let init = arguments(reader, room);
    if reader.takes(Sign::CloseRound) {
        return Head::All(init);
    }
    reader.expect(Sign::Semicolon);
    let test = closed(reader, Sign::Semicolon, room);
    let step = closed_arguments(reader, room);
    Head::Steps(init, test, step)
}
