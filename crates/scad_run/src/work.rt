//! The work of a command, up to the report's last line.
ghost use Rattle.std.specs.Prelude.{◌≡◌, ◌<◌, ◌≤◌, ◌-◌, false, Some, None, option_map, map, string_bytes, IfOk, IfErr};
ghost use Rattle.scad_script.specs.Script.{IsWithin};
ghost use Rattle.scad_script.specs.Play.{Carries, Completes};
ghost use Rattle.scad_script.specs.Run.{Sound, CreatesNone};
ghost use Rattle.scad_script.specs.Departure.{Keeps, Leaves};
ghost use Rattle.scad_words.specs.Job.{job_of};
ghost use Rattle.scad_words.specs.Numbers.{worker_limit};
ghost use Rattle.scad_run.specs.Words.{model_of, case_of};
ghost use Rattle.scad_run.specs.Answer.{model_read_first, input_script, AreDrawn};
ghost use Rattle.scad_run.specs.Inputs.{source_limit};
ghost use Rattle.scad_run.specs.Playing.{Gets, Draws, Works, AsksNothing};

use crate::evaluation::evaluate;
use crate::finish::finish;
use crate::judging::judge;
use crate::order::Order;
use crate::settings::settle;
use scad_fault::{Budget, Text};
use scad_io::{Desk, Gate};
use scad_sample::sample_source;
use scad_script::{Input, Refusal, Stop, load};
use scad_words::{Command, Job, WordFault, read_words};
use std::alloc::Global;
use std::thread::Threads;

/// The most bytes that a source may have.
const SOURCE_LIMIT: usize = 4_194_304;

/// Reads the words, the settings and the source, and does what the command says: the last line, or why it stopped.
pub fn work<R: Threads + Sync, D: Desk, G: Gate>(
    rt: &R,
    alloc: Global,
    words: &[String],
    desk: &mut D,
    gate: &G,
) -> Result<Text, Stop>
    requires sound { Sound (D.view desk.old) }
    requires no_cli { (D.view desk.old).cli.created ≡ false }
    requires no_gcode { (D.view desk.old).gcode.created ≡ false }

    ensures works { Works (map string_bytes words.now) (D.files desk.old) result (D.view desk.old) (D.view desk.new) }
    ensures leaves { Leaves D.files D.faults desk.old desk.new result }
{
    let job = asked(alloc, words)?;
    let settings = settle(alloc, &job.settings, desk)?;
    let order = Order {
        command: &job.command,
        settings,
        workers: job.workers,
    };
    match case_of(&job.command) {
        Some((outlines, program)) => {
            judge(alloc, outlines, program, order.settings.line_width, desk)
        },
        None => draw(rt, alloc, &order, desk, gate),
    }
}

/// The names of the outlines and of the printing program that a command judges.
fn case_of(command: &Command) -> Option<(&str, &str)>
    ensures { option_map (λ names. record { outlines = names.0.now; program = names.1.now }) result ≡ case_of command.now }
{
    match command {
        Command::Verify(outlines, program) => Some((outlines.as_str(), program.as_str())),
        Command::Check(_)
        | Command::Tree(_)
        | Command::Slice(_, _)
        | Command::Plan(_, _, _)
        | Command::Sample(_) => None,
    }
}

/// Gets the source of a command, and does with it what the command says.
fn draw<R: Threads + Sync, D: Desk, G: Gate>(
    rt: &R,
    alloc: Global,
    order: &Order,
    desk: &mut D,
    gate: &G,
) -> Result<Text, Stop>
    requires source { case_of order.now.command.now ≡ None }
    requires sound { Sound (D.view desk.old) }
    requires no_cli { (D.view desk.old).cli.created ≡ false }
    requires no_gcode { (D.view desk.old).gcode.created ≡ false }

    ensures draws { Draws order.now.command.now order.now.settings (D.files desk.old) result (D.view desk.old) (D.view desk.new) }
    ensures leaves { Leaves D.files D.faults desk.old desk.new result }
{
    let input = source(alloc, order.command, desk)?;
    follow(rt, alloc, order, input, desk, gate)
}

/// The job that the words ask for.
fn asked(alloc: Global, words: &[String]) -> Result<Job, Stop>
    ensures job { IfOk result (λ job. job_of (map string_bytes words.now) ≡ Some job) }
    ensures workers { IfOk result (λ job. (1 ≤ job.workers) × (job.workers ≤ worker_limit)) }
    ensures usage { IfErr result (AsksNothing (job_of (map string_bytes words.now))) }
{
    match read_words(alloc, words) {
        Ok(job) => Ok(job),
        Err(WordFault::Usage) => Err(Stop::Ends(Refusal::Usage)),
        Err(WordFault::Memory) => Err(Stop::Memory),
    }
}

/// The source of a command: its model is read, that of `sample` is made.
fn source<D: Desk>(alloc: Global, command: &Command, desk: &mut D) -> Result<Input, Stop>
    requires source { case_of command.now ≡ None }
    requires sound { Sound (D.view desk.old) }

    ensures carries { Carries (model_read_first (model_of command.now)) result (D.view desk.old) (D.view desk.new) }
    ensures gets { IfOk result (Gets command.now (D.files desk.old)) }
    ensures within { IfOk result (IsWithin (Some source_limit)) }
    ensures kept { Keeps D.files D.view D.faults desk.old desk.new result }
    ensures creates { CreatesNone (D.view desk.old) (D.view desk.new) }
{
    match command {
        Command::Check(model) => load(alloc, model.as_str(), Some(SOURCE_LIMIT), desk),
        Command::Tree(model) => load(alloc, model.as_str(), Some(SOURCE_LIMIT), desk),
        Command::Slice(model, _) => load(alloc, model.as_str(), Some(SOURCE_LIMIT), desk),
        Command::Plan(model, _, _) => load(alloc, model.as_str(), Some(SOURCE_LIMIT), desk),
        Command::Sample(n) => Ok(Input::Whole(sample_source(alloc, *n)?)),
        Command::Verify(_, _) => unreachable!(),
    }
}

/// Does with the source what the command says.
fn follow<R: Threads + Sync, D: Desk, G: Gate>(
    rt: &R,
    alloc: Global,
    order: &Order,
    input: Input,
    desk: &mut D,
    gate: &G,
) -> Result<Text, Stop>
    requires within { IsWithin (Some source_limit) input }
    requires source { case_of order.now.command.now ≡ None }
    requires sound { Sound (D.view desk.old) }
    requires no_cli { (D.view desk.old).cli.created ≡ false }
    requires no_gcode { (D.view desk.old).gcode.created ≡ false }

    ensures completes { (parts : _) → AreDrawn (Some input) parts
        → Completes (input_script order.now.command.now order.now.settings parts (Some input)) result
        (D.view desk.old) (D.view desk.new) }
    ensures leaves { Leaves D.files D.faults desk.old desk.new result }
{
    let source = match input {
        Input::Whole(source) => source,
        Input::Long => return Err(Stop::Ends(Refusal::Over(Budget::source_long()))),
    };
    let tree = evaluate(alloc, source.as_slice(), desk)?;
    tree.are_solids();
    finish(rt, alloc, order, &tree, desk, gate)
}
