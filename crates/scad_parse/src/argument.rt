//! Arguments.

ghost use Rattle.std.specs.Prelude.{length};
ghost use Rattle.scad_ast.specs.Tree.{no_arguments};
ghost use Rattle.scad_ast.specs.View.{arguments};
ghost use Rattle.scad_grammar.specs.Rules.{args_of};
ghost use Rattle.scad_parse.specs.Reading.{below, rules_at, argument_of, argument_seen, arguments_seen};
ghost use Rattle.scad_parse.specs.Standing.{Reads};

use crate::expression::expression;
use crate::reader::Reader;
use scad_ast::{Arg, Args};
use scad_lex::Sign;

// "(" args ")"
#[cycle(expression)]
pub(crate) fn round_arguments(reader: &mut Reader<'_>, room: u32) -> Args
    ensures { Reads (λ e ts. (rules_at e room).round_args ts) reader.old reader.new (arguments_seen result) }
{
    reader.needs(Sign::OpenRound);
    let Some(open) = reader.open(room) else {
        return Args::new(reader.alloc);
    };
    closed_arguments(reader, open.room)
}

// args ")"
#[cycle(expression)]
pub(crate) fn closed_arguments(reader: &mut Reader<'_>, room: u32) -> Args
    ensures { Reads (λ e ts. (rules_at e room).args_closed ts) reader.old reader.new (arguments_seen result) }
{
    let args = arguments(reader, room);
    reader.expect(Sign::CloseRound);
    args
}

// args = list of [WORD "="] expr, up to a `)` or `;`, which stays
#[cycle(expression)]
pub(crate) fn arguments(reader: &mut Reader<'_>, room: u32) -> Args
    ensures { Reads (λ e ts. args_of e (below e room) (length ts) no_arguments ts) reader.old reader.new
        (arguments_seen result) }
{
    let mut args = Args::new(reader.alloc);
    'members: while reader.lacks_end_of_arguments() {
        let arg = argument(reader, room);
        reader.push_lone(&mut args, arg);
        reader.behind_argument();
    }
    args.shrink_to_fit();
    args
}

// [WORD "="] expr
#[cycle(expression)]
fn argument(reader: &mut Reader<'_>, room: u32) -> Arg
    ensures { Reads (λ e ts. argument_of e (below e room) ts) reader.old reader.new (argument_seen result) }
{
    let name = reader.argument_name();
    let value = expression(reader, room);
    Arg { name, value }
}
