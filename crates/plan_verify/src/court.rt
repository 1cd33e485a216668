//! The whole judgement.
ghost use Rattle.std.specs.Prelude.{◌≡◌, ◌-◌, ◌<◌, ◌≤◌, ◌^◌, All, IfSome};
ghost use Rattle.cli_read.specs.View.{layers_of};
ghost use Rattle.gcode_text.specs.Limits.{width_limit};
ghost use Rattle.plan_verify.specs.Stays.{AreWithin};
ghost use Rattle.plan_verify.specs.Verdict.{IsVerdict, IsVerdictBy};
ghost use Rattle.plan_verify.specs.Fields.{IsSound, StaysInFields};
ghost use Rattle.plan_verify.specs.Judgement.{verdict_of, IsAdded, WithMove};
ghost use Rattle.plan_verify.specs.Limits.{IsMoveWithin};

use crate::field::{Field, fields_of};
use crate::height::stays_by_height;
use crate::judgement::{Judgement, Out};
use crate::line::first_line;
use crate::verdict::{Verdict, VerifyFault};
use cli_read::Cli;
use gcode_text::{Machine, Move};
use std::alloc::Global;

/// Judges a printing program by the outlines of layers, for lines of `line_width` micrometres: whether each move that
/// extrudes is level, lies at the height of a layer, and stays inside this layer's outlines by the clearance of half the
/// width: each point of it keeps off each side by more than c - 1 along one axis or more than c + t - 2 along the sum of
/// both, where c is half the width and t is c * 414214 / 1000000, and the outlines wind round it. The program is read by the
/// machine, line by line, to its end: a line that it refuses goes before a move that doesn't stay inside.
pub fn check(
    alloc: Global,
    cli: &Cli,
    gcode: &[u8],
    line_width: u32,
) -> Result<Verdict, VerifyFault>
    requires layers { AreWithin (layers_of cli.now) }
    requires least { 100 ≤ line_width }
    requires most { line_width ≤ width_limit }
    ensures { IsVerdict (layers_of cli.now) line_width gcode.now result }
{
    let fields = fields_of(alloc, cli.layers.as_slice())?;
    judge(&fields, gcode, line_width)
}

fn judge(fields: &[Field], gcode: &[u8], line_width: u32) -> Result<Verdict, VerifyFault>
    requires fields { All IsSound fields.now }
    requires least { 100 ≤ line_width }
    requires most { line_width ≤ width_limit }
    ensures { IsVerdictBy (StaysInFields fields.now line_width) gcode.now result }
{
    let mut machine = Machine::new();
    let mut judgement = Judgement::none();
    let mut line: u32 = 0;
    let mut rest = gcode;
    'lines: loop {
        let (front, behind) = first_line(rest);
        let done = machine.step(front)?;
        line = line.saturating_add(1);
        judgement = with_line(fields, judgement, &done, line, line_width);
        match behind {
            Some(text) => rest = text,
            None => return Ok(said(judgement)),
        }
    }
}

// With the move of a line that was read, if it has one.
fn with_line(
    fields: &[Field],
    judgement: Judgement,
    done: &Option<Move>,
    line: u32,
    line_width: u32,
) -> Judgement
    requires fields { All IsSound fields.now }
    requires least { 100 ≤ line_width }
    requires most { line_width ≤ width_limit }
    requires within { IfSome done.now IsMoveWithin }
    requires few { judgement.moves < 2 ^ 64 - 1 }
    ensures { WithMove (StaysInFields fields.now line_width) done.now line judgement result }
{
    match done {
        Some(m) => with_move(fields, judgement, m, line, line_width),
        None => judgement,
    }
}

// With a move that was read.
#[tactic(auto, using(crate::proofs::Adding::add_passed, crate::proofs::Adding::add_late, crate::proofs::Adding::add_judged))]
fn with_move(
    fields: &[Field],
    judgement: Judgement,
    m: &Move,
    line: u32,
    line_width: u32,
) -> Judgement
    requires fields { All IsSound fields.now }
    requires least { 100 ≤ line_width }
    requires most { line_width ≤ width_limit }
    requires within { IsMoveWithin m.now }
    requires few { judgement.moves < 2 ^ 64 - 1 }
    ensures { IsAdded (StaysInFields fields.now line_width) judgement line m.now result }
{
    if !m.extruding {
        return judgement;
    }
    if judgement.out.is_some() {
        return judgement.with(true, line);
    }
    judgement.with(stays_by_height(fields, m, line_width), line)
}

fn said(judgement: Judgement) -> Verdict
    ensures { result ≡ verdict_of judgement }
{
    match judgement.out {
        Some(out) => Verdict::Outside {
            number: out.number,
            line: out.line,
        },
        None => Verdict::Inside {
            moves: judgement.moves,
        },
    }
}
