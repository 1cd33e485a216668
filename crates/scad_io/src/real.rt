//! The desk of real files and the standard output, the trusted edge.
ghost use Rattle.std.specs.Prelude.{◌≡◌, None};
ghost use Rattle.scad_io.specs.Desk.{unused};

use crate::claims::Claims;
use crate::handle::{Handle, note_write};
use crate::{Desk, Failed, Out};
use std::marker::Model;
use std::rt::Files;

/// Real files, and the standard output as the report.
///
/// It keeps which outputs were created and which objects have failed. It tells no contents, names
/// or bytes.
#[derive(Drop)]
pub struct RealDesk<'a, R: Files + Print> {
    rt: &'a R,
    claims: Claims,
    input: Handle<R::File>,
    report_failed: bool,
    cli: Handle<R::File>,
    gcode: Handle<R::File>,
}

impl<'a, R: Files + Print> Model for RealDesk<'a, R> {
    ghost use Rattle.std.specs.Prelude.{false, is_some};
    ghost use Rattle.scad_io.specs.Desk.{View, untold};

    ghost Value = { View };

    ghost view = { λ d. record {
      input = untold false d.input.failed;
      report = untold false d.report_failed;
      cli = untold (is_some d.cli.file) d.cli.failed;
      gcode = untold (is_some d.gcode.file) d.gcode.failed;
    } };
}

impl<'a, R: Files + Print> RealDesk<'a, R> {
    /// A desk over the files and the standard output of this runtime.
    pub fn new(rt: &'a R) -> RealDesk<'a, R>
        ensures { result ≡ unused None }
    {
        RealDesk {
            rt,
            claims: Claims::none(),
            input: Handle::new(),
            report_failed: false,
            cli: Handle::new(),
            gcode: Handle::new(),
        }
    }
}

impl<'a, R: Files + Print> Desk for RealDesk<'a, R> {
    ghost use Rattle.std.specs.Prelude.{None};
    ghost use Rattle.scad_io.specs.Desk.{failed_count};

    ghost files = { λ _. None };

    ghost view = { λ d. d };

    ghost faults = { failed_count };

    fn open(&mut self, name: &str) -> Result<(), Failed> {
        self.input.keep(self.claims.open(self.rt, name))
    }

    fn read(&mut self, into: &mut [u8]) -> Result<usize, Failed> {
        self.input.read(into)
    }

    fn create(&mut self, out: Out, name: &str) -> Result<(), Failed> {
        let created = self.claims.create(self.rt, name);
        match out {
            Out::Report => unreachable!(),
            Out::Cli => self.cli.keep(created),
            Out::Gcode => self.gcode.keep(created),
        }
    }

    fn write(&mut self, out: Out, bytes: &[u8]) -> Result<usize, Failed> {
        match out {
            Out::Report => note_write(self.rt.write_some(bytes), &mut self.report_failed),
            Out::Cli => self.cli.write(bytes),
            Out::Gcode => self.gcode.write(bytes),
        }
    }
}
