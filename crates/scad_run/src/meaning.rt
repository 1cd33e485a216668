//! What a source makes: its tokens are read, then its program, and that is evaluated.
ghost use Rattle.std.specs.Prelude.{◌≡◌, ◌-◌, ◌^◌, ◌<◌, [], length, Ok};
ghost use Rattle.scad_inst.specs.Model.{Makes};
ghost use Rattle.scad_run.specs.Meaning.{fault_at, text_fault, tokens_mean, source_means};
ghost use Rattle.scad_run.specs.View.{parse_fault};

use scad_expr::EvalFault;
use scad_fault::{Fault, FaultKind, Place};
use scad_inst::{Model, ModelEnd, model};
use scad_lex::{LexFault, Tokens, lex};
use scad_parse::{ParseFault, parse};
use std::alloc::Global;

/// What the source makes, or its first fault or budget; with the lines of `echo`.
#[tactic(auto, unfolding(crate::specs::Meaning::source_means))]
pub fn model_of_source(alloc: Global, source: &[u8]) -> Result<Model, ModelEnd>
    requires { length source.now < 2 ^ 32 - 1 }
    ensures { Makes (source_means source.now) result }
{
    match lex(alloc, source) {
        Ok(tokens) => model_of_tokens(alloc, tokens),
        Err(fault) => Err(nothing_made(alloc, text_fault(alloc, fault))),
    }
}

/// What tokens make. They are given up before the program is evaluated.
fn model_of_tokens(alloc: Global, tokens: Tokens) -> Result<Model, ModelEnd>
    ensures { Makes (tokens_mean (Ok (tokens.list.items, tokens.end))) result }
{
    let read = parse(alloc, &tokens);
    drop(tokens);
    match read {
        Ok(program) => model(alloc, &program),
        Err(fault) => Err(nothing_made(alloc, tokens_fault(alloc, fault))),
    }
}

/// Nothing was evaluated.
fn nothing_made(alloc: Global, fault: EvalFault) -> ModelEnd
    ensures fault { result.fault ≡ fault }
    ensures echoes { result.echoes.items ≡ [] }
{
    ModelEnd {
        fault,
        echoes: Vec::new(alloc),
    }
}

/// Why a text has no tokens.
fn text_fault(alloc: Global, fault: LexFault) -> EvalFault
    ensures { result ≡ text_fault fault }
{
    match fault {
        LexFault::BadText(at) => fault_at(alloc, FaultKind::BadText, at),
        LexFault::Range(at) => fault_at(alloc, FaultKind::NumberRange, at),
        LexFault::Memory => EvalFault::Memory,
    }
}

/// Why tokens are no program.
fn tokens_fault(alloc: Global, fault: ParseFault) -> EvalFault
    ensures { result ≡ parse_fault fault }
{
    match fault {
        ParseFault::Syntax(at) => fault_at(alloc, FaultKind::Syntax, at),
        ParseFault::Nesting(at) => fault_at(alloc, FaultKind::Nesting, at),
        ParseFault::LeftOut(at, name) => EvalFault::Fault(Fault {
            kind: FaultKind::LeftOut,
            at,
            name,
        }),
        ParseFault::Memory => EvalFault::Memory,
    }
}

fn fault_at(alloc: Global, kind: FaultKind, at: Place) -> EvalFault
    ensures { result ≡ fault_at kind at }
{
    EvalFault::Fault(Fault::unnamed(alloc, kind, at))
}
