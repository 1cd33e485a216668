//! Whole runs over a desk in memory: what they answer and leave.
ghost use Rattle.std.specs.Prelude.{◌≡◌, Some, [], IfOk};
ghost use Rattle.scad_io.specs.Desk.{unused};

use crate::gate::Meeting;
use memory_desk::MemoryDesk;
use scad_fault::{Status, Text};
use scad_io::Out;
use scad_run::run;
use std::alloc::{AllocError, Global};
use std::process::Abort;
use std::thread::Threads;

/// The room of a desk on which nothing is cut short.
pub const ROOM: usize = 1 << 16;

/// What a run answered and left.
pub struct Answer {
    /// The number of its status.
    pub code: u8,
    pub report: Vec<u8>,
    pub cli: Vec<u8>,
    pub gcode: Vec<u8>,
    /// How many objects of the desk failed.
    pub faults: u64,
}

// Let go by one call wherever it is owned; what is derived is done in place there.
impl Drop for Answer {
    fn drop(self) {
        let Answer {
            code: _,
            report: _report,
            cli: _cli,
            gcode: _gcode,
            faults: _,
        } = self;
    }
}

/// Files, each a name and its content, the calls that fail, and the room of each output.
#[derive(Clone, Copy)]
pub struct Setup<'a> {
    pub files: &'a [(&'a str, &'a [u8])],
    pub fails: &'a [u64],
    pub room: usize,
}

fn desk_of(alloc: Global, setup: &Setup) -> Result<MemoryDesk, AllocError>
    ensures { IfOk result (λ desk. desk.view ≡ unused (Some [])) }
{
    let mut files = Vec::new(alloc);
    for &(name, content) in setup.files {
        let name = Text::of(alloc, name.as_bytes())?;
        files.push((name, Text::of(alloc, content)?))?;
    }
    MemoryDesk::new(alloc, files, setup.fails.to_vec(alloc)?, setup.room)
}

fn parted(alloc: Global, words: &str) -> Result<Vec<String>, AllocError> {
    let mut texts = Vec::new(alloc);
    for word in words.split(' ') {
        texts.push(String::from_str(alloc, word)?)?;
    }
    Ok(texts)
}

fn answer_on(alloc: Global, status: Status, desk: &MemoryDesk) -> Result<Answer, AllocError> {
    Ok(Answer {
        code: status.code(),
        report: desk.written(Out::Report).to_vec(alloc)?,
        cli: desk.written(Out::Cli).to_vec(alloc)?,
        gcode: desk.written(Out::Gcode).to_vec(alloc)?,
        faults: desk.faults(),
    })
}

/// Runs the words, parted by blanks, over a new desk.
pub fn answered<R: Threads + Sync + Abort>(
    rt: &R,
    alloc: Global,
    words: &str,
    setup: &Setup,
    gate: &Meeting,
) -> Answer {
    let words = parted(alloc, words).expect(rt, "memory");
    let mut desk = desk_of(alloc, setup).expect(rt, "memory");
    let status = run(rt, alloc, &words, &mut desk, gate);
    answer_on(alloc, status, &desk).expect(rt, "memory")
}
