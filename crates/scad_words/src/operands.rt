//! What a command was given: its files, its number and its options.
ghost use Rattle.std.specs.Prelude.{◌≡◌, ◌≢◌, ◌≤◌, Some, None, IfSome, IfOk, IfErr, Err, option_map};
ghost use Rattle.clap.specs.Matches.{found_of};
ghost use Rattle.clap.specs.Walk.{rows_of, first_of};
ghost use Rattle.scad_words.specs.Numbers.{worker_limit};
ghost use Rattle.scad_words.specs.Job.{slice_in, plan_in, sample_in, verify_in, command_of, settings_in, workers_in};

use crate::job::{Command, WordFault};
use crate::number::{sample_of, workers_of};
use clap::ArgMatches;
use scad_fault::FileName;
use std::alloc::{AllocError, Global};

/// The command of this name over what it was given.
pub(crate) fn command_of(
    alloc: Global,
    name: &str,
    given: &ArgMatches<'_>,
) -> Result<Command, WordFault>
    ensures command { IfOk result (λ c. command_of name.now (rows_of (found_of given.now)) ≡ Some c) }
    ensures usage { (result ≡ Err WordFault.Usage) → (command_of name.now (rows_of (found_of given.now)) ≡ None) }
{
    if name == "check" {
        Ok(Command::Check(file(alloc, given, "model")?))
    } else if name == "tree" {
        Ok(Command::Tree(file(alloc, given, "model")?))
    } else if name == "slice" {
        slice(alloc, given)
    } else if name == "plan" {
        plan(alloc, given)
    } else if name == "sample" {
        sample(given)
    } else if name == "verify" {
        verify(alloc, given)
    } else {
        Err(WordFault::Usage)
    }
}

fn slice(alloc: Global, given: &ArgMatches<'_>) -> Result<Command, WordFault>
    ensures command { IfOk result (λ c. slice_in (rows_of (found_of given.now)) ≡ Some c) }
    ensures usage { (result ≡ Err WordFault.Usage) → (slice_in (rows_of (found_of given.now)) ≡ None) }
{
    let model = file(alloc, given, "model")?;
    let cli = file(alloc, given, "cli")?;
    Ok(Command::Slice(model, cli))
}

fn plan(alloc: Global, given: &ArgMatches<'_>) -> Result<Command, WordFault>
    ensures command { IfOk result (λ c. plan_in (rows_of (found_of given.now)) ≡ Some c) }
    ensures usage { (result ≡ Err WordFault.Usage) → (plan_in (rows_of (found_of given.now)) ≡ None) }
{
    let model = file(alloc, given, "model")?;
    let cli = file(alloc, given, "cli")?;
    let gcode = file(alloc, given, "gcode")?;
    Ok(Command::Plan(model, cli, gcode))
}

fn sample(given: &ArgMatches<'_>) -> Result<Command, WordFault>
    ensures command { IfOk result (λ c. sample_in (rows_of (found_of given.now)) ≡ Some c) }
    ensures usage { (result ≡ Err WordFault.Usage) → (sample_in (rows_of (found_of given.now)) ≡ None) }
    ensures memory { result ≢ Err WordFault.Memory }
{
    let Some(text) = value(given, "number") else {
        return Err(WordFault::Usage);
    };
    match sample_of(text) {
        Some(number) => Ok(Command::Sample(number)),
        None => Err(WordFault::Usage),
    }
}

fn verify(alloc: Global, given: &ArgMatches<'_>) -> Result<Command, WordFault>
    ensures command { IfOk result (λ c. verify_in (rows_of (found_of given.now)) ≡ Some c) }
    ensures usage { (result ≡ Err WordFault.Usage) → (verify_in (rows_of (found_of given.now)) ≡ None) }
{
    let cli = file(alloc, given, "cli")?;
    let gcode = file(alloc, given, "gcode")?;
    Ok(Command::Verify(cli, gcode))
}

/// The file of the settings, where one is named.
pub(crate) fn settings(alloc: Global, given: &ArgMatches<'_>) -> Result<Option<FileName>, WordFault>
    ensures name { IfOk result (λ f. f ≡ settings_in (rows_of (found_of given.now))) }
    ensures memory { IfErr result (λ fault. fault ≡ WordFault.Memory) }
{
    match value(given, "settings") {
        Some(name) => Ok(Some(copy(alloc, name)?)),
        None => Ok(None),
    }
}

/// How many workers are asked for: one where no number is given.
pub(crate) fn workers(given: &ArgMatches<'_>) -> Option<u32>
    ensures number { result ≡ workers_in (rows_of (found_of given.now)) }
    ensures range { IfSome result (λ w. (1 ≤ w) × (w ≤ worker_limit)) }
{
    match value(given, "workers") {
        Some(text) => workers_of(text),
        None => Some(1),
    }
}

// The file that is given under this name.
fn file(alloc: Global, given: &ArgMatches<'_>, id: &str) -> Result<FileName, WordFault>
    ensures name { IfOk result (λ f. first_of id.now (rows_of (found_of given.now)) ≡ Some f) }
    ensures usage { (result ≡ Err WordFault.Usage) → (first_of id.now (rows_of (found_of given.now)) ≡ None) }
{
    match value(given, id) {
        Some(name) => copy(alloc, name),
        None => Err(WordFault::Usage),
    }
}

fn copy(alloc: Global, name: &str) -> Result<FileName, WordFault>
    ensures name { IfOk result (λ f. f ≡ name.now) }
    ensures memory { IfErr result (λ fault. fault ≡ WordFault.Memory) }
{
    match FileName::of(alloc, name) {
        Ok(name) => Ok(name),
        Err(AllocError) => Err(WordFault::Memory),
    }
}

// The value that is given under this name.
fn value<'a>(given: &ArgMatches<'a>, id: &str) -> Option<&'a str>
    ensures { option_map (λ s. s.now) result ≡ first_of id.now (rows_of (found_of given.now)) }
{
    given.get_str(id)
}
