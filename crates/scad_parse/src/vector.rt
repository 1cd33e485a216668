//! What stands in brackets: ranges and vectors.

ghost use Rattle.std.specs.Prelude.{◌≡◌, option_map};
ghost use Rattle.scad_ast.specs.View.{expression_of, element_of, elements};
ghost use Rattle.scad_grammar.specs.Rules.{range_end};
ghost use Rattle.scad_grammar.specs.Steps.{range_start};
ghost use Rattle.scad_parse.specs.Reading.{below, rules_at, range_at};
ghost use Rattle.scad_parse.specs.Standing.{Reads};

use crate::element::element;
use crate::expression::{closed, expression};
use crate::node;
use crate::reader::{Open, Reader};
use scad_ast::{Elem, Elems, Expr};
use scad_lex::Sign;

// range | vector, behind the "["
// vector = "[" list of elem "]"
#[cycle(expression)]
pub(crate) fn brackets(reader: &mut Reader<'_>, open: Open) -> Expr
    ensures { Reads (λ e ts. (rules_at e «open».room).brackets «open».at ts) reader.old reader.new
        (expression_of result) }
{
    let mut all = Elems::new(reader.alloc);
    'members: while reader.lacks(Sign::CloseSquare) {
        let elem = element(reader, open.room);
        if reader.begins_with(Sign::Colon) {
            return range(reader, &all, elem, open);
        }
        reader.push(&mut all, elem);
        reader.behind_member(Sign::CloseSquare);
    }
    reader.pass();
    all.shrink_to_fit();
    node::vector(open.at, all)
}

/// The expression with which a range begins: the element, where it is the first.
#[tactic(auto, using(crate::proofs::loops::Pushes::no_start))]
fn range_start(all: &Elems, first: Elem) -> Option<Expr>
    ensures { option_map expression_of result ≡ range_start (elements all.now.items) (element_of first) }
{
    if !all.is_empty() {
        drop(first);
        return None;
    }
    match first {
        Elem::Item(start) => Some(start),
        other => {
            drop(other);
            None
        }
    }
}

// range = "[" expr ":" expr [":" expr] "]", behind the first part
#[cycle(expression)]
fn range(reader: &mut Reader<'_>, all: &Elems, first: Elem, open: Open) -> Expr
    ensures { Reads (λ e ts. range_at e (below e «open».room) «open».at (elements all.now.items) (element_of first) ts)
        reader.old reader.new (expression_of result) }
{
    let Some(start) = range_start(all, first) else {
        reader.refuse();
        return node::nothing(open.at);
    };
    reader.pass();
    let second = expression(reader, open.room);
    ranged(reader, start, second, open)
}

// [":" expr] "]", behind the first two parts
#[cycle(expression)]
fn ranged(reader: &mut Reader<'_>, start: Expr, second: Expr, open: Open) -> Expr
    ensures { Reads (λ e ts. range_end e (below e «open».room) «open».at (expression_of start)
        (expression_of second) ts)
        reader.old reader.new (expression_of result) }
{
    if reader.takes(Sign::Colon) {
        let last = closed(reader, Sign::CloseSquare, open.room);
        return node::stepped(reader, open.at, start, second, last);
    }
    reader.expect(Sign::CloseSquare);
    node::range(reader, open.at, start, second)
}
