//! Printing of programs as source that reads as the program again.
ghost use Rattle.std.specs.Prelude.{◌≡◌, IfOk};
ghost use Rattle.scad_ast.specs.Text.{items_text};
ghost use Rattle.scad_ast.specs.Scope.{program_of};

mod expression;
mod statement;
mod token;

use crate::statement::Program;
use scad_fault::Text;
use statement::write_items;
use std::alloc::{AllocError, Global};
use text_scan::Printer;

/// The text of a program: a blank behind each token, a line feed behind `;`, `{` and `}`, and operands in parentheses
/// unless they are literals, names, calls, vectors, ranges, indices or members.
pub fn print(alloc: Global, program: &Program) -> Result<Text, AllocError>
    ensures { IfOk result (λ t. t ≡ items_text (program_of program.now)) }
{
    let mut out = Printer::new(alloc);
    write_items(&mut out, &program.scope);
    Ok(Text::from_vec(out.finish()?))
}
