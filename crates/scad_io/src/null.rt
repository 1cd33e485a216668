//! The desk that keeps nothing.
ghost use Rattle.std.specs.Prelude.{◌≡◌, ◌≢◌, ◌<◌, true, false, length, Ok};
ghost use Rattle.scad_io.specs.Desk.{side, Opens, Creates, after_read, after_write};
ghost use Rattle.scad_io.specs.Null.{blank, empty_files, null_view};

use crate::{Desk, Failed, Out};
use std::marker::Model;

/// A desk that takes all that is written and keeps none of it. Each name is one of an empty file.
///
/// It keeps which outputs were created and tells no name. No call of it fails, so its count of
/// faults is 0.
#[derive(Drop)]
pub struct NullDesk {
    cli_created: bool,
    gcode_created: bool,
}

impl Model for NullDesk {
    ghost use Rattle.scad_io.specs.Null.{Null};

    ghost Value = { Null };

    ghost view = { λ d. record { cli = d.cli_created; gcode = d.gcode_created } };
}

impl NullDesk {
    /// A desk on which nothing was created.
    pub fn new() -> NullDesk
        ensures { result ≡ blank }
    {
        NullDesk {
            cli_created: false,
            gcode_created: false,
        }
    }
}

impl Desk for NullDesk {
    ghost use Rattle.scad_io.specs.Null.{empty_files, null_view};

    ghost files = { λ _. empty_files };

    ghost view = { null_view };

    ghost faults = { λ _. 0 };

    fn open(&mut self, _name: &str) -> Result<(), Failed>
        ensures view { Opens empty_files _name.now result (null_view self.old) (null_view self.new) }

        ensures exact { result ≡ Ok tt }
        ensures same { self.new ≡ self.old }
    {
        Ok(())
    }

    fn read(&mut self, into: &mut [u8]) -> Result<usize, Failed>
        requires piece { 0 < length into.old }
        ensures view { null_view self.new ≡ after_read result (null_view self.old) }

        ensures exact { result ≡ Ok 0 }
        ensures into { into.new ≡ into.old }
        ensures same { self.new ≡ self.old }
    {
        Ok(0)
    }

    fn create(&mut self, out: Out, _name: &str) -> Result<(), Failed>
        requires named { out ≢ Out.Report }
        requires absent { (side out (null_view self.old)).created ≡ false }
        ensures view { Creates out _name.now result (null_view self.old) (null_view self.new) }

        ensures exact { result ≡ Ok tt }
    {
        match out {
            Out::Report => unreachable!(),
            Out::Cli => self.cli_created = true,
            Out::Gcode => self.gcode_created = true,
        }
        Ok(())
    }

    fn write(&mut self, out: Out, bytes: &[u8]) -> Result<usize, Failed>
        requires made { out ≢ Out.Report → (side out (null_view self.old)).created ≡ true }
        requires piece { 0 < length bytes.now }
        ensures view { null_view self.new ≡ after_write out bytes.now result (null_view self.old) }

        ensures exact { result ≡ Ok (length bytes.now) }
        ensures same { self.new ≡ self.old }
    {
        Ok(bytes.len())
    }
}
