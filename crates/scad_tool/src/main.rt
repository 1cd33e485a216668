//! The program: `main` hands the words and the real files to `run` of scad_run, whose contract has the promise, and
//! ends with its status.
#![tactic(auto)]

use scad_fault::Status;
use scad_io::{Open, RealDesk};
use scad_run::run;
use std::env::{self, Env};
use std::io;
use std::process::ExitCode;

fn main(rt: HostRuntime) -> ExitCode {
    let words = match words_behind_name(&rt) {
        Ok(words) => words,
        Err(e) if e.kind() == io::ErrorKind::OutOfMemory => {
            return ExitCode::from(Status::Memory.code());
        }
        Err(_) => Vec::new(rt.alloc()),
    };
    let mut desk = RealDesk::new(&rt);
    let status = run(&rt, rt.alloc(), &words, &mut desk, &Open);
    ExitCode::from(status.code())
}

/// The words behind the program's name.
fn words_behind_name<R: Env + AllocGlobal>(rt: &R) -> io::Result<Vec<String>> {
    let mut words = Vec::new(rt.alloc());
    for word in env::args(rt)?.skip(1) {
        words.push(word)?;
    }
    Ok(words)
}
