//! The job that the words ask for.
ghost use Rattle.std.specs.Prelude.{◌≡◌, ◌≢◌, ◌≤◌, not, map, ◌++◌, ◌∷◌, Some, None, option_and_then, IfOk, Err, string_bytes, bytes_eq};
ghost use Rattle.std.specs.List.{list_any};
ghost use Rattle.clap.specs.Matches.{found_of};
ghost use Rattle.clap.specs.Simple.{app_of, subcommand_rows_of};
ghost use Rattle.clap.specs.Walk.{rows_of};
ghost use Rattle.scad_words.specs.CommandSet.{command_set};
ghost use Rattle.scad_words.specs.Numbers.{worker_limit};
ghost use Rattle.scad_words.specs.Job.{files_of, named, differ, job_given, job_from, job_of};

use crate::command_set::command_set;
use crate::job::{Command, Job, WordFault};
use crate::operands::{command_of, settings, workers};
use clap::ArgMatches;
use clap::error::ErrorKind;
use scad_fault::FileName;
use std::alloc::{AllocError, Global};

/// The job that the words behind the program's name ask for.
///
/// They are `check MODEL`, `tree MODEL`, `slice MODEL CLI`, `plan MODEL CLI GCODE`, `sample N` or `verify CLI GCODE`,
/// with `--settings FILE` and `--workers W` each at most once before, between or after these, also as
/// `--settings=FILE`; after `--` each word is a name. N is below 2^31 in at most ten digits, W from 1 to 64 in at most
/// nine, and 1 where it isn't given. No two of the named files may have equal names. Where the words are of no such form
/// the answer is `Usage`.
pub fn read_words(alloc: Global, words: &[String]) -> Result<Job, WordFault>
    ensures job { IfOk result (λ job. job_of (map string_bytes words.now) ≡ Some job) }
    ensures workers { IfOk result (λ job. (1 ≤ job.workers) × (job.workers ≤ worker_limit)) }
    ensures usage { (result ≡ Err WordFault.Usage) → (job_of (map string_bytes words.now) ≡ None) }
{
    match command_set(alloc) {
        Ok(commands) => asked(alloc, commands, words),
        Err(AllocError) => Err(WordFault::Memory),
    }
}

// The job that the words ask these commands for.
fn asked<'a>(
    alloc: Global,
    commands: clap::Command<'a>,
    words: &'a [String],
) -> Result<Job, WordFault>
    requires { app_of commands ≡ command_set }
    ensures job { IfOk result (λ job. job_of (map string_bytes words.now) ≡ Some job) }
    ensures workers { IfOk result (λ job. (1 ≤ job.workers) × (job.workers ≤ worker_limit)) }
    ensures usage { (result ≡ Err WordFault.Usage) → (job_of (map string_bytes words.now) ≡ None) }
{
    match commands.try_get_matches_from(words) {
        Ok(matches) => job_met(alloc, &matches),
        Err(error) => Err(refusal(error.kind())),
    }
}

// Want of memory is told apart from words that aren't taken.
fn refusal(kind: ErrorKind) -> WordFault
    ensures usage { (result ≡ WordFault.Usage) → (kind ≢ ErrorKind.OutOfMemory) }
    ensures memory { (result ≡ WordFault.Memory) → (kind ≡ ErrorKind.OutOfMemory) }
{
    if kind == ErrorKind::OutOfMemory {
        WordFault::Memory
    } else {
        WordFault::Usage
    }
}

// The job of the command that the words name.
fn job_met(alloc: Global, matches: &ArgMatches<'_>) -> Result<Job, WordFault>
    ensures job { IfOk result (λ job. option_and_then job_from (subcommand_rows_of matches.now) ≡ Some job) }
    ensures workers { IfOk result (λ job. (1 ≤ job.workers) × (job.workers ≤ worker_limit)) }
    ensures usage { (result ≡ Err WordFault.Usage)
        → (option_and_then job_from (subcommand_rows_of matches.now) ≡ None) }
{
    match matches.subcommand() {
        Some((name, given)) => job_given(alloc, name, given),
        None => Err(WordFault::Usage),
    }
}

// The job of a command's name and of what it was given.
fn job_given(alloc: Global, name: &str, given: &ArgMatches<'_>) -> Result<Job, WordFault>
    ensures job { IfOk result (λ job. job_given name.now (rows_of (found_of given.now)) ≡ Some job) }
    ensures workers { IfOk result (λ job. (1 ≤ job.workers) × (job.workers ≤ worker_limit)) }
    ensures usage { (result ≡ Err WordFault.Usage) → (job_given name.now (rows_of (found_of given.now)) ≡ None) }
{
    let command = command_of(alloc, name, given)?;
    let settings = settings(alloc, given)?;
    match workers(given) {
        Some(workers) if differ(&command, &settings) => Ok(Job {
            command,
            settings,
            workers,
        }),
        _ => Err(WordFault::Usage),
    }
}

// Whether no two of the files have equal names.
fn differ(command: &Command, settings: &Option<FileName>) -> bool
    ensures { result ≡ differ (files_of command.now ++ named settings.now) }
{
    match command {
        Command::Check(model) => is_other(model, settings),
        Command::Tree(model) => is_other(model, settings),
        Command::Slice(model, cli) => two_differ(model, cli, settings),
        Command::Plan(model, cli, gcode) => {
            model.as_str() != cli.as_str()
                && model.as_str() != gcode.as_str()
                && is_other(model, settings)
                && two_differ(cli, gcode, settings)
        }
        Command::Sample(_) => true,
        Command::Verify(cli, gcode) => two_differ(cli, gcode, settings),
    }
}

fn two_differ(one: &FileName, other: &FileName, settings: &Option<FileName>) -> bool
    ensures { result ≡ differ (one.now ∷ other.now ∷ named settings.now) }
{
    one.as_str() != other.as_str() && is_other(one, settings) && is_other(other, settings)
}

fn is_other(name: &FileName, settings: &Option<FileName>) -> bool
    ensures { result ≡ not (list_any (λ other. bytes_eq name.now other) (named settings.now)) }
{
    match settings {
        Some(settings) => name.as_str() != settings.as_str(),
        None => true,
    }
}
