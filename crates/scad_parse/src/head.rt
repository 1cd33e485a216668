//! The head of a `for` among elements.

ghost use Rattle.scad_ast.specs.View.{element_of};
ghost use Rattle.scad_grammar.specs.Rules.{headed};
ghost use Rattle.scad_parse.specs.Heads.{head_of};
ghost use Rattle.scad_parse.specs.Standing.{Reads, nothing_read};

use crate::node;
use crate::reader::Reader;
use scad_ast::{Args, Elem, Expr};
use scad_fault::Place;

/// The head of a `for` among elements: its arguments, or its three parts.
#[derive(Drop)]
pub(crate) enum Head {
    All(Args),
    Steps(Args, Expr, Args),
}

/// The `for` with this head and this element.
pub(crate) fn headed(reader: &mut Reader<'_>, at: Place, head: Head, elem: Elem) -> Elem
    ensures { Reads (nothing_read (headed at (head_of head) (element_of elem))) reader.old reader.new (element_of result) }
{
    match head {
        Head::All(args) => node::for_each(reader, at, args, elem),
        Head::Steps(init, test, step) => node::for_loop(reader, at, init, test, step, elem),
    }
}
