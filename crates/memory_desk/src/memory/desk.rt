//! The calls of a memory desk.
// The four calls: the clauses of every desk, and then what this one answers and changes exactly.
ghost use Rattle.std.specs.Prelude.{◌≡◌, ◌≢◌, ◌++◌, ◌<◌, ◌≤◌, true, false, length, take, drop, IfOk, IfSome};
ghost use Rattle.std.specs.Result.{result_unwrap_or};
ghost use Rattle.scad_io.specs.Desk.{side, Gives, Opens, Creates, after_read, after_write, HasCause, WriteHasCause, failed_count};
ghost use Rattle.memory_desk.specs.Memory.{contents, rest_of, told_name, open_answer, read_answer, create_answer, write_answer, Steps};

use crate::memory::MemoryDesk;
use crate::shelf;
use scad_io::{Desk, Failed, Out};

impl Desk for MemoryDesk {
    ghost use Rattle.scad_io.specs.Desk.{failed_count};
    ghost use Rattle.memory_desk.specs.Memory.{contents};

    ghost files = { contents };

    ghost view = { λ d. d.view };

    ghost faults = { λ d. failed_count d.view };

    fn open(&mut self, name: &str) -> Result<(), Failed>
        requires sound { self.old.view.input.failed ≡ false }
        ensures view { Opens (contents self.old) name.now result self.old.view self.new.view }
        ensures files { contents self.new ≡ contents self.old }
        ensures cause { HasCause (failed_count self.old.view) (failed_count self.new.view) result }

        ensures exact { result ≡ open_answer name.now self.old }
        ensures name { self.new.view.input.name ≡ told_name name.now }
        ensures steps { Steps result self.old self.new }
    {
        let due = self.calls.count();
        self.input.name.keep(name);
        match shelf::open(&self.files, name.as_bytes()) {
            Some(cursor) if !due => {
                self.input.cursor = Some(cursor);
                Ok(())
            }
            _ => {
                self.input.failed = true;
                Err(Failed)
            }
        }
    }

    fn read(&mut self, into: &mut [u8]) -> Result<usize, Failed>
        requires sound { self.old.view.input.failed ≡ false }
        requires piece { 0 < length into.old }
        ensures bound { IfOk result (λ n. n ≤ length into.new) }
        ensures bytes { IfOk result (λ n.
            IfSome self.old.view.input.bytes (λ rest. Gives rest n into.new)) }
        ensures view { self.new.view ≡ after_read result self.old.view }
        ensures files { contents self.new ≡ contents self.old }
        ensures cause { HasCause (failed_count self.old.view) (failed_count self.new.view) result }

        ensures exact { result ≡ read_answer (length into.old) self.old }
        ensures into { let n = result_unwrap_or result 0 in
            into.new ≡ take n (rest_of self.old) ++ drop n into.old }
        ensures steps { Steps result self.old self.new }
    {
        if self.calls.count() {
            self.input.failed = true;
            return Err(Failed);
        }
        match &mut self.input.cursor {
            Some(cursor) => Ok(shelf::read(&self.files, cursor, into)),
            None => Ok(0),
        }
    }

    fn create(&mut self, out: Out, name: &str) -> Result<(), Failed>
        requires named { out ≢ Out.Report }
        requires sound { (side out self.old.view).failed ≡ false }
        requires absent { (side out self.old.view).created ≡ false }
        ensures view { Creates out name.now result self.old.view self.new.view }
        ensures files { contents self.new ≡ contents self.old }
        ensures cause { HasCause (failed_count self.old.view) (failed_count self.new.view) result }

        ensures exact { result ≡ create_answer name.now self.old }
        ensures name { (side out self.new.view).name ≡ told_name name.now }
        ensures steps { Steps result self.old self.new }
    {
        let due = self.calls.count();
        match out {
            Out::Report => unreachable!(),
            Out::Cli => self.cli.create(due, name),
            Out::Gcode => self.gcode.create(due, name),
        }
    }

    fn write(&mut self, out: Out, bytes: &[u8]) -> Result<usize, Failed>
        requires sound { (side out self.old.view).failed ≡ false }
        requires made { out ≢ Out.Report → (side out self.old.view).created ≡ true }
        requires piece { 0 < length bytes.now }
        ensures bound { IfOk result (λ n. n ≤ length bytes.now) }
        ensures view { self.new.view ≡ after_write out bytes.now result self.old.view }
        ensures files { contents self.new ≡ contents self.old }
        ensures cause { let before = failed_count self.old.view in
            WriteHasCause before (failed_count self.new.view) result }

        ensures exact { result ≡ write_answer out (length bytes.now) self.old }
        ensures steps { Steps result self.old self.new }
    {
        let due = self.calls.count();
        match out {
            Out::Report => self.report.write(due, bytes),
            Out::Cli => self.cli.write(due, bytes),
            Out::Gcode => self.gcode.write(due, bytes),
        }
    }
}
