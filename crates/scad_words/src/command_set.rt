//! The commands as `clap` takes them.
ghost use Rattle.std.specs.Prelude.{◌≡◌, false, map, IfOk};
ghost use Rattle.clap.specs.Simple.{App, app_of, with_subcommand};
ghost use Rattle.clap.specs.Walk.{rule_of};
ghost use Rattle.scad_words.specs.CommandSet.{program, positional, option, command_app, IsMade, command_set};

use clap::{Arg, Command};
use std::alloc::{AllocError, Global};

/// The program's commands, without help and version.
pub(crate) fn command_set<'a>(alloc: Global) -> Result<Command<'a>, AllocError>
    ensures { IfOk result (λ c. app_of c ≡ command_set) }
{
    let commands = with_command(alloc, Ok(program(alloc)), "check", &["model"]);
    let commands = with_command(alloc, commands, "tree", &["model"]);
    let commands = with_command(alloc, commands, "slice", &["model", "cli"]);
    let commands = with_command(alloc, commands, "plan", &["model", "cli", "gcode"]);
    let commands = with_command(alloc, commands, "sample", &["number"]);
    with_command(alloc, commands, "verify", &["cli", "gcode"])
}

// The program without its commands.
fn program<'a>(alloc: Global) -> Command<'a>
    ensures { app_of result ≡ program }
{
    Command::new(alloc, "scadslice")
        .no_binary_name(true)
        .disable_help_flag(true)
        .disable_help_subcommand(true)
        .disable_version_flag(true)
        .subcommand_required(true)
}

// The commands and one more, where memory suffices.
fn with_command<'a>(
    alloc: Global,
    commands: Result<Command<'a>, AllocError>,
    name: &'a str,
    words: &[&'a str],
) -> Result<Command<'a>, AllocError>
    ensures { (all : App) → IfOk commands.entry (λ c. app_of c ≡ all)
        → IfOk result (λ c. app_of c ≡ with_subcommand all (command_app name.now (map (λ w. w.now) words.now)).top) }
{
    match commands {
        Ok(commands) => match command_of(alloc, name, words) {
            Ok(command) => commands.subcommand(command),
            Err(error) => Err(error),
        },
        Err(error) => Err(error),
    }
}

// The command of this name that requires these words, with the options of every command.
fn command_of<'a>(
    alloc: Global,
    name: &'a str,
    words: &[&'a str],
) -> Result<Command<'a>, AllocError>
    ensures { IsMade (command_app name.now (map (λ w. w.now) words.now)) result }
{
    let mut command = Command::new(alloc, name);
    for word in words {
        command = command.arg(positional(alloc, word))?;
    }
    let command = command.arg(option(alloc, "settings"))?;
    command.arg(option(alloc, "workers"))
}

// A word that a command requires.
fn positional<'a>(alloc: Global, id: &'a str) -> Arg<'a>
    ensures rule { rule_of result ≡ positional id.now }
    ensures plain { result.global ≡ false }
{
    Arg::new(alloc, id).required(true)
}

// An option with one value.
fn option<'a>(alloc: Global, id: &'a str) -> Arg<'a>
    ensures rule { rule_of result ≡ option id.now }
    ensures plain { result.global ≡ false }
{
    Arg::new(alloc, id).long(id)
}
