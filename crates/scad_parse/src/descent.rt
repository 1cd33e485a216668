//! The program that tokens derive.

ghost use Rattle.std.specs.Prelude.{◌≡◌, ◌≢◌, [], Ok, Err, IfOk, MatchResult};
ghost use Rattle.scad_ast.specs.Scope.{program_of};
ghost use Rattle.scad_grammar.specs.Verdict.{Judged};
ghost use Rattle.scad_parse.specs.JudgedFault.{JudgedFault};
ghost use Rattle.scad_parse.specs.Reading.{refusal};
ghost use Rattle.scad_parse.specs.Standing.{refused, form_name};

use crate::fault::{Fault, Form, ParseFault};
use crate::reader::Reader;
use crate::statement::statement;
use scad_ast::{Program, Scope};
use scad_fault::Text;
use scad_lex::Tokens;
use std::alloc::{AllocError, Global};

/// At most so many constructs are open at a token.
const MOST_OPEN: u32 = 200;

/// The name of a form that is left out.
fn name_of(alloc: Global, form: Form) -> Result<Text, AllocError>
    ensures { IfOk result (λ name. name ≡ form_name form) }
{
    match form {
        Form::Function => Text::of(alloc, b"function"),
        Form::Power => Text::of(alloc, b"^"),
        Form::Include => Text::of(alloc, b"include"),
        Form::Use => Text::of(alloc, b"use"),
        Form::Root => Text::of(alloc, b"!"),
    }
}

/// The fault that a reader remembers, with the name of what is left out.
fn told(alloc: Global, fault: Fault) -> ParseFault
    ensures { result ≢ ParseFault.Memory → (fault ≢ Fault.Memory) × (refusal result ≡ refused fault) }
{
    match fault {
        Fault::Memory => ParseFault::Memory,
        Fault::Syntax(at) => ParseFault::Syntax(at),
        Fault::Nesting(at) => ParseFault::Nesting(at),
        Fault::LeftOut(at, form) => {
            match name_of(alloc, form) {
                Ok(name) => ParseFault::LeftOut(at, name),
                Err(_) => ParseFault::Memory,
            }
        }
    }
}

/// The program that the tokens derive, or the first token that has a fault.
// program = stmt*
/// The one program that the tokens derive, or the fault of the first token that has one: `Syntax`, `Nesting` or
/// `LeftOut`.
pub fn parse(alloc: Global, tokens: &Tokens) -> Result<Program, ParseFault>
    ensures { MatchResult result
        (λ p. Judged [] tokens.now.list.items tokens.now.end (Ok (program_of p)))
        (λ fault. JudgedFault tokens.now.list.items tokens.now.end fault) }
{
    let mut reader = Reader {
        alloc,
        left: tokens.list.as_slice(),
        end: tokens.end,
        fault: None,
    };
    let mut scope = Scope::new(alloc);
    'statements: while reader.has_more() {
        scope = statement(&mut reader, true, scope, MOST_OPEN);
    }
    match reader.fault {
        None => {
            scope.shrink_to_fit();
            Ok(Program { scope })
        }
        Some(fault) => Err(told(alloc, fault)),
    }
}
