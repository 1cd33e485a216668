//! The operands without operators.

ghost use Rattle.scad_ast.specs.View.{expression_of};
ghost use Rattle.scad_parse.specs.Reading.{below, prim_at, name_at};
ghost use Rattle.scad_parse.specs.Standing.{Reads};

use crate::argument::closed_arguments;
use crate::expression::closed;
use crate::node;
use crate::reader::Reader;
use crate::vector::brackets;
use scad_ast::Expr;
use scad_lex::Sign;

// prim = NUMBER | STRING | "true" | "false" | "undef" | WORD | WORD "(" args ")" | "(" expr ")"
//      | range | vector
#[cycle(expression)]
pub(crate) fn primary(reader: &mut Reader<'_>, room: u32) -> Expr
    ensures { Reads (λ e ts. prim_at e (below e room) ts) reader.old reader.new (expression_of result) }
{
    if let Some(open) = reader.opens(Sign::OpenRound, room) {
        return closed(reader, Sign::CloseRound, open.room);
    }
    if let Some(open) = reader.opens(Sign::OpenSquare, room) {
        return brackets(reader, open);
    }
    if let Some(value) = reader.literal() {
        return value;
    }
    named(reader, room)
}

// WORD | WORD "(" args ")"
#[cycle(expression)]
fn named(reader: &mut Reader<'_>, room: u32) -> Expr
    ensures { Reads (λ e ts. name_at e (below e room) ts) reader.old reader.new (expression_of result) }
{
    let word = reader.word();
    let Some(open) = reader.opens(Sign::OpenRound, room) else {
        return node::name(word.at, word.name);
    };
    let args = closed_arguments(reader, open.room);
    node::call(word.at, word.name, args)
}
