//! The desk in memory.
ghost use Rattle.std.specs.Prelude.{◌≡◌, Some, IfOk};
ghost use Rattle.scad_io.specs.Desk.{side, failed_count};
ghost use Rattle.memory_desk.specs.Memory.{made_of};

use crate::calls::Calls;
use crate::last_name::LastName;
use crate::shelf::Cursor;
use crate::sink::Sink;
use scad_fault::Text;
use scad_io::Out;
use std::alloc::{AllocError, Global};
use std::marker::Model;

mod desk;

struct Input {
    name: LastName,
    cursor: Option<Cursor>,
    failed: bool,
}

// Let go by one call wherever it is owned; what is derived is done in place there.
impl Drop for Input {
    fn drop(self) {
        let Input {
            name: _name,
            cursor: _cursor,
            failed: _,
        } = self;
    }
}

/// A desk in memory, for tests: files by name, the numbers of the calls that are to fail, and a
/// room for each output.
///
/// Contracts see it as a `Memory`. Its calls take no memory.
pub struct MemoryDesk {
    files: Vec<(Text, Text)>,
    calls: Calls,
    room: usize,
    input: Input,
    report: Sink,
    cli: Sink,
    gcode: Sink,
}

// Let go by one call wherever it is owned; what is derived is done in place there.
impl Drop for MemoryDesk {
    fn drop(self) {
        let MemoryDesk {
            files: _files,
            calls: _calls,
            room: _,
            input: _input,
            report: _report,
            cli: _cli,
            gcode: _gcode,
        } = self;
    }
}

impl Model for MemoryDesk {
    ghost use Rattle.std.specs.Prelude.{◌≡◌, Some, false};
    ghost use Rattle.memory_desk.specs.Memory.{Memory};
    ghost use Rattle.memory_desk.specs.Shelf.{rest_at};

    ghost Value = { Memory };

    ghost view = { λ d. record {
      files = d.files.items;
      fails = d.calls.fails.items;
      calls = d.calls.next;
      room = d.room;
      view = record {
        input = record {
          name = d.input.name;
          bytes = Some (rest_at d.files.items d.input.cursor);
          created = false;
          failed = d.input.failed;
        };
        report = d.report.side;
        cli = d.cli.side;
        gcode = d.gcode.side;
      };
    } };

    ghost invariant = { λ d.
        (d.report.room ≡ d.room) × (d.cli.room ≡ d.room) × (d.gcode.room ≡ d.room) };
}

impl MemoryDesk {
    /// A desk with files by name, of which the first of a name counts. Its calls of the numbers in
    /// `fails` fail, counted from 0 over all of them. Each output has room for so many bytes.
    pub fn new(
        alloc: Global,
        files: Vec<(Text, Text)>,
        fails: Vec<u64>,
        room: usize,
    ) -> Result<MemoryDesk, AllocError>
        ensures { IfOk result (λ d. d ≡ made_of files.items fails.items room) }
    {
        Ok(MemoryDesk {
            files,
            calls: Calls { fails, next: 0 },
            room,
            input: Input {
                name: LastName::new(alloc)?,
                cursor: None,
                failed: false,
            },
            report: Sink::new(alloc, room)?,
            cli: Sink::new(alloc, room)?,
            gcode: Sink::new(alloc, room)?,
        })
    }

    /// What was written to an output.
    pub fn written(&self, out: Out) -> &[u8]
        ensures { (side out self.now.view).bytes ≡ Some result.now }
    {
        match out {
            Out::Report => self.report.written(),
            Out::Cli => self.cli.written(),
            Out::Gcode => self.gcode.written(),
        }
    }

    /// How many objects have failed.
    pub fn faults(&self) -> u64
        ensures { result ≡ failed_count self.now.view }
    {
        u64::from(self.input.failed)
            + u64::from(self.report.has_failed())
            + u64::from(self.cli.has_failed())
            + u64::from(self.gcode.has_failed())
    }
}
